// Laws of the machine: each function has no body, and its contract is the law.
ghost use Rattle.std.specs.Prelude.{ℕ};
ghost use Rattle.planner_machine.specs.Laws.{AnswersOnce, DailyByIsToEnd, DailyIsFates, FollowsFate, IsWellFormed};
ghost use Rattle.planner_machine.specs.Laws.{KeepsItself, KeepsPairs, PairsHaveNoLoop, PredecessorsAreComplete};
ghost use Rattle.planner_machine.specs.Laws.{StaysSound};
ghost use Rattle.planner_machine.specs.declared.counts.Count.{Count};
ghost use Rattle.planner_machine.specs.Content.{nothing_known};
ghost use Rattle.planner_machine.specs.Fresh.{FreshIsExact, LeavesFresh, StaysFresh};
ghost use Rattle.planner_machine.specs.Refused.{RefusedLeaves};
ghost use Rattle.planner_machine.specs.Rerun.{RerunEndsAsEachRun, RerunEndsAsOneRun};
ghost use Rattle.planner_machine.specs.Sound.{IsSound};
ghost use Rattle.planner_machine.specs.Statement.{Change, Create, DailyExtend, DailyExtendBy, ModifyAll, Replan};
ghost use Rattle.planner_machine.specs.Stream.{RunsByFate, RunsOneWay, RunsSound};
ghost use Rattle.planner_machine.specs.Trials.{TrialAnswersAsStatement, TrialLeaves};

/// Law: on sound content a statement has one answer, and leaves one content.
pub fn one_answer()
    ensures { (change : Change) → AnswersOnce change }
{}

/// Law: a statement that is refused leaves the content as it was, but for its own job, which keeps the refusal.
pub fn refusal_changes_nothing()
    ensures { RefusedLeaves }
{}

/// Law: an accepted statement leaves each occurrence where its fate puts it, and makes exactly the occurrences that its
/// definition says, under the serials after those issued.
pub fn fate_is_followed()
    ensures { (change : Change) → FollowsFate change }
{}

/// Law: a content in which nothing is known yet is sound.
pub fn empty_content_is_sound()
    ensures { IsSound nothing_known }
{}

/// Law: sound content stays sound, whatever a statement of well-formed values is answered.
pub fn sound_content_stays_sound()
    ensures { (change : Change) → IsWellFormed change → StaysSound change }
{}

/// Law: under every fate an occurrence keeps its key and its serial, and stays generated or added by hand.
pub fn occurrence_stays_itself()
    ensures { (change : Change) → KeepsItself change }
{}

/// Law: a daily plan on whole sets is the fates of all occurrences together, and changes no pair; and one by days is the
/// daily plan to the new end that they give.
pub fn daily_plans()
    ensures fates { DailyIsFates }
    ensures by_days { DailyByIsToEnd }
    ensures extend_keeps_pairs { (t : ℕ) → KeepsPairs (DailyExtend t) }
    ensures days_keep_pairs { (n : ℕ) (count : Count) → KeepsPairs (DailyExtendBy n count) }
    ensures replan_keeps_pairs { KeepsPairs Replan }
{}

/// Law: in sound content what has started, ended in error or is complete, in the current plan or in history, has only
/// predecessors that are complete.
pub fn predecessors_are_complete()
    ensures { PredecessorsAreComplete }
{}

/// Law: the pairs of sound content have no loop.
pub fn pairs_have_no_loop()
    ensures { PairsHaveNoLoop }
{}

/// Law: a stream over sound content is answered in one way and leaves one content, which is sound; and each serial
/// issued by then is in exactly one place, where its fates put it, from where it was before or from where it was made
/// on the way.
pub fn streams()
    ensures one_way { RunsOneWay }
    ensures sound { RunsSound }
    ensures by_fate { RunsByFate }
{}

/// Law: a stream that is run again from its start, on the content that a first part of it left, ends as one run of the
/// whole stream, and each statement with a job number is answered as in that run; on sound content no other run of the
/// whole stream ends otherwise.
pub fn reruns()
    ensures one_run { RerunEndsAsOneRun }
    ensures each_run { RerunEndsAsEachRun }
{}

/// Law: a trial changes nothing, and is answered as its statement would be at that moment under a job number that is
/// not known.
pub fn trials()
    ensures leaves { TrialLeaves }
    ensures answers { TrialAnswersAsStatement }
{}

/// Law: an accepted `ltp-create` or `ltp-modify-all` over sound content leaves fresh content; from fresh content each
/// stream leaves fresh content that adds and removes no definition; and in sound content fresh means that
/// the generated rows of the long-term plan are exactly those that are named, less those left out.
pub fn fresh_plans()
    ensures create { (from to : ℕ) → LeavesFresh (Create from to) }
    ensures modify { LeavesFresh ModifyAll }
    ensures streams { StaysFresh }
    ensures exact { FreshIsExact }
{}
