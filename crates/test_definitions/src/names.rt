// Definitions by name: their names in order, and the same made again of their vector. One kind stands for all.
use app_definitions::{Application, ByName};
use std::alloc::Global;
use std::process::Abort;
use work_calendars::Name;

// Active applications of these names, of the default calendar.
fn applications(rt: &impl Abort, alloc: Global, names: &[&str]) -> ByName<Application> {
    let mut by_name = ByName::new(alloc);
    for name in names {
        let application = Application {
            active: true,
            calendar: None,
        };
        let name = Name::from_text(name).expect(rt, "a name");
        by_name.insert(name, application).expect(rt, "memory");
    }
    by_name
}

fn joined(rt: &impl Abort, alloc: Global, by_name: &ByName<Application>) -> String {
    let mut text = String::new(alloc);
    for name in by_name.names(alloc).expect(rt, "memory") {
        text.push_str(name.as_str()).expect(rt, "memory");
        text.push(' ').expect(rt, "memory");
    }
    text
}

#[test]
fn names_and_vector(rt: HostRuntime) {
    let alloc = rt.alloc();
    let by_name = applications(&rt, alloc, &["Z", "Y", "D", "C", "B"]);
    assert_eq!(rt; joined(&rt, alloc, &by_name).as_str(), "B C D Y Z ");
    let entries = by_name.into_vec(alloc).expect(&rt, "memory");
    assert_eq!(rt; entries.len(), 5);
    let again = ByName::from_vec(alloc, entries).expect(&rt, "memory");
    let again = again.expect(&rt, "names that differ");
    assert_eq!(rt; joined(&rt, alloc, &again).as_str(), "B C D Y Z ");
}
