//! Laws over the plans: each function has an empty body, and its contract is the law.

ghost use Rattle.result_commands.specs.WrittenOut.{GenIsWrittenOut, CheckIsWrittenOut};

/// The plan of `gen` calls for exactly what `GenCallsFor` writes out, and may leave exactly what `GenMayLeave` writes
/// out.
pub fn gen_is_written_out()
    ensures { GenIsWrittenOut }
{}

/// The plan of `check` calls for exactly what `CheckCallsFor` writes out, and may leave exactly what `CheckMayLeave`
/// writes out.
pub fn check_is_written_out()
    ensures { CheckIsWrittenOut }
{}
