//! What holds of the commands of a session, for whoever reads a session in parts.
ghost use Rattle.st_lines.specs.Commands.{AskedInParts, EndsWhole, WholeInParts};

/// Lines that are read in parts are the same commands: those that stand whole in the first part, and then those of the
/// second, which begins within a change where the first ends so. Where the first part ends between commands, all its
/// commands stand whole.
pub fn commands_come_in_parts()
    ensures asked { AskedInParts }
    ensures whole { WholeInParts }
    ensures ends { EndsWhole }
{}
