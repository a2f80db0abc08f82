//! Laws of programs as they run.
ghost use Rattle.st_compile.specs.Programs.{RunsKeepTheFrame};

/// What a run of a checked program leaves is one value of the right type for each leaf, and each forced leaf has the value that it had.
pub fn runs_keep_the_frame()
    ensures { RunsKeepTheFrame }
{}
