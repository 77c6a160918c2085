//! The law that an input has one output. It does nothing when it runs.

ghost use Rattle.spec_lines.specs.Output.{HasOneOutput, HasOutput};
ghost use Rattle.spec_lines.specs.Running.{StopInOneState};

/// The law that a run stops in just one state, and that for each input of `transcode`, `compile` and `run` there is
/// just one output, with one status.
pub fn input_has_one_output()
    ensures state { StopInOneState }
    ensures some { HasOutput }
    ensures one { HasOneOutput }
{
    resolver::payload_has_one_outcome(); // law
    isa::row_or_end_is_there(); // law
    program_correctness::runs_alone_are_counted_and_stay(); // law
}
