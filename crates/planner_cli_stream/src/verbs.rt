//! The names of statements, and the words that may follow each.
ghost use Rattle.std.specs.Prelude.{◌≡◌, ◌≢◌, IfSome, IfNone};
ghost use Rattle.planner_cli_stream.specs.Form.{layout_of};
ghost use Rattle.planner_cli_stream.specs.Verb.{layout_for, verb_text};

use crate::{Form, KeyAct};
use occurrences::Action;

/// The name of a statement, its first word.
#[derive(Clone, Copy, Debug, PartialEq, Eq)]
pub enum Verb {
    /// `define`
    Define,
    /// `undefine`
    Undefine,
    /// `days`
    Days,
    /// `ltp-create`
    LtpCreate,
    /// `ltp-extend`
    LtpExtend,
    /// `ltp-modify-all`
    LtpModifyAll,
    /// `ltp-modify-one`
    LtpModifyOne,
    /// `ltp-trial`
    LtpTrial,
    /// `dp-extend`
    DpExtend,
    /// `dp-replan`
    DpReplan,
    /// `dp-trial`
    DpTrial,
    /// `ltp-add`, `ltp-delete`, `cp-add` to `cp-delete`: the statements on one occurrence
    OnKey(KeyAct),
    /// `list`
    List,
}

impl Verb {
    /// The statement's name that the word is.
    pub fn from_text(text: &str) -> Option<Verb>
        ensures some { IfSome result (λ verb. text.now ≡ verb_text verb) }
        ensures none { IfNone result ((verb : Verb) → text.now ≢ verb_text verb) }
    {
        match text {
            "define" => Some(Verb::Define),
            "undefine" => Some(Verb::Undefine),
            "days" => Some(Verb::Days),
            "ltp-create" => Some(Verb::LtpCreate),
            "ltp-extend" => Some(Verb::LtpExtend),
            "ltp-modify-all" => Some(Verb::LtpModifyAll),
            "ltp-modify-one" => Some(Verb::LtpModifyOne),
            "ltp-trial" => Some(Verb::LtpTrial),
            "ltp-add" => Some(Verb::OnKey(KeyAct::Add)),
            "ltp-delete" => Some(Verb::OnKey(KeyAct::Delete)),
            "dp-extend" => Some(Verb::DpExtend),
            "dp-replan" => Some(Verb::DpReplan),
            "dp-trial" => Some(Verb::DpTrial),
            "cp-add" => Some(Verb::OnKey(KeyAct::AddCurrent)),
            "cp-start" => Some(Verb::OnKey(KeyAct::Act(Action::Start))),
            "cp-complete" => Some(Verb::OnKey(KeyAct::Act(Action::Complete))),
            "cp-fail" => Some(Verb::OnKey(KeyAct::Act(Action::Fail))),
            "cp-reset" => Some(Verb::OnKey(KeyAct::Act(Action::Reset))),
            "cp-delete" => Some(Verb::OnKey(KeyAct::Act(Action::Delete))),
            "list" => Some(Verb::List),
            _ => None,
        }
    }

    /// What follows the name.
    pub fn form(self) -> Form<'static>
        ensures { layout_of result ≡ layout_for self }
    {
        match self {
            Verb::Define => Form {
                required: JOB.as_slice(),
                optional: &[],
                word: Some("KIND"),
            },
            Verb::Undefine => Form {
                required: NAME_JOB.as_slice(),
                optional: &[],
                word: Some("KIND"),
            },
            Verb::Days => Form {
                required: APP_FROM_TO.as_slice(),
                optional: &[],
                word: None,
            },
            Verb::LtpCreate => Form {
                required: FROM_TO_JOB.as_slice(),
                optional: &[],
                word: None,
            },
            Verb::LtpExtend => Form {
                required: TO_JOB.as_slice(),
                optional: &[],
                word: None,
            },
            Verb::DpExtend => Form {
                required: JOB.as_slice(),
                optional: TO_DAYS_COUNT.as_slice(),
                word: None,
            },
            Verb::LtpModifyAll | Verb::DpReplan => Form {
                required: JOB.as_slice(),
                optional: &[],
                word: None,
            },
            Verb::LtpModifyOne => Form {
                required: APP_JOB.as_slice(),
                optional: &[],
                word: None,
            },
            Verb::LtpTrial => Form {
                required: &[],
                optional: FROM_TO_APP.as_slice(),
                word: Some("FUNCTION"),
            },
            Verb::DpTrial => Form {
                required: &[],
                optional: TO_DAYS_COUNT.as_slice(),
                word: Some("FUNCTION"),
            },
            Verb::List => Form {
                required: &[],
                optional: APP.as_slice(),
                word: Some("WHAT"),
            },
            Verb::OnKey(_) => Form {
                required: APP_IA_JOB.as_slice(),
                optional: &[],
                word: None,
            },
        }
    }
}

static APP: [&str; 1] = ["app"];

static APP_FROM_TO: [&str; 3] = ["app", "from", "to"];

static APP_IA_JOB: [&str; 3] = ["app", "ia", "job"];

static APP_JOB: [&str; 2] = ["app", "job"];

static FROM_TO_APP: [&str; 3] = ["from", "to", "app"];

static FROM_TO_JOB: [&str; 3] = ["from", "to", "job"];

static JOB: [&str; 1] = ["job"];

static NAME_JOB: [&str; 2] = ["name", "job"];

static TO_DAYS_COUNT: [&str; 3] = ["to", "days", "count"];

static TO_JOB: [&str; 2] = ["to", "job"];
