// Laws of the machine: each function does nothing but call the laws that it stands on, and its contract is the law.
ghost use Rattle.planner_machine.specs.Content.{nothing_known};
ghost use Rattle.planner_machine.specs.Statement.{Change, Statement};
ghost use Rattle.planner_machine.specs.Stream.{IsStatement};
ghost use Rattle.planner_answers.specs.Answers.{HasOneAnswer, HasOneStep, IsKept, LacksAnswer};
ghost use Rattle.planner_answers.specs.Answers.{StaysKept, StreamsHaveOneRun};

use planner_machine::{empty_content_is_sound, one_answer, streams};

/// Law: on what a store keeps, a statement that changes something has exactly one answer and leaves exactly one content;
/// and so has each statement of a stream.
pub fn exactly_one_answer()
    ensures changes { (change : Change) → HasOneAnswer change }
    ensures statements { (s : Statement) → IsStatement s → HasOneStep s }
{
    one_answer();
    streams();
}

/// Law: what a store keeps stays so, whatever a statement is answered; and a content in which nothing is known yet is
/// such.
pub fn kept_content_stays_kept()
    ensures empty { IsKept nothing_known }
    ensures statements { (s : Statement) → IsStatement s → StaysKept s }
{
    empty_content_is_sound();
    streams();
}

/// Law: a stream is answered to its end, in one way, and leaves one content.
pub fn each_stream_has_one_run()
    ensures { StreamsHaveOneRun }
{
    streams();
}

/// Law: that content is sound is too little for an answer: where two links in force have the same names, and different
/// limits, no list in order has both.
pub fn sound_content_may_lack_an_answer()
    ensures { LacksAnswer }
{
    empty_content_is_sound();
}
