ghost use Rattle.std.specs.Prelude.{◌≡◌, ◌↔◌, List, Some};
ghost use Rattle.planner_cli_stream.specs.Grammar.{Layout, Text, Use, reading_of};
ghost use Rattle.planner_cli_stream.specs.Written.{IsReading};

/// A list of words reads as the uses that it writes out one after another, and as no others.
pub fn reads_what_is_written()
    ensures { (l : Layout) (words : List Text) (us : List Use) → (reading_of l words ≡ Some us)
        ↔ IsReading l words us }
{}
