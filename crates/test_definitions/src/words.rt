//! Values that no statement takes, and a byte that no line has: a stream can't show them.
use planner_cli_stream::{Form, is_line_text};

static REQUIRED: [&str; 2] = ["app", "from"];

static OPTIONAL: [&str; 2] = ["to", "by"];

#[test]
fn takes_words(rt: HostRuntime) {
    let form = Form {
        required: REQUIRED.as_slice(),
        optional: OPTIONAL.as_slice(),
        word: Some("KIND"),
    };
    let words = ["--from=a=b", "cron", "--app", "shop", "--to="];
    let values = form.read(rt.alloc(), words.as_slice());
    let values = values.expect(&rt, "memory").expect(&rt, "in the grammar");
    assert!(rt; values.get("app") == Some("shop") && values.get("from") == Some("a=b"));
    assert!(rt; values.get("to") == Some("") && values.get("by").is_none());
    assert!(rt; values.get("KIND") == Some("cron"));
}

#[test]
fn a_line_feed_is_in_no_line(rt: HostRuntime) {
    assert!(rt; !is_line_text([b'a', b'\n'].as_slice()));
}
