//! The tables: for each family the numbers, each with its sentence and its advice.
ghost use Rattle.std.specs.List.{find};
ghost use Rattle.std.specs.Prelude.{◌≡◌, ◌∷◌, [], Some, map, option_map};
ghost use Rattle.st_faults.specs.Faults.{number_of as rule_number};
ghost use Rattle.st_faults.specs.Meanings.{has_number, meaning, meaning_at, meaning_of, number_of, table_of};

use crate::explanation::{Explanation, Family};
use crate::fault::Rule;

/// A number, its title, its sentence and its advice.
type Row = (u8, &'static str, &'static str, &'static str);

/// Why a text isn't in the grammar.
static SYNTAX: [Row; 4] = [
    (
        1,
        "no word, number or symbol of the language begins here",
        "No word, number or symbol of the language begins here, or a comment begins here that is never closed.",
        "Remove the character that is out of place, or close the comment with `*)`.",
    ),
    (
        2,
        "the text can't go on like this",
        "The text can't go on like this: a word or symbol is missing before this place, or this one doesn't belong here.",
        "Compare this line and the one before it with the grammar in docs/LANGUAGE.md; often a `;` or an END_ word is missing.",
    ),
    (
        3,
        "more than 64 levels are open here",
        "More than 64 parentheses, brackets and statements are open inside one another here.",
        "Work out a part of it in a statement before this one, or move it into a function.",
    ),
    (
        4,
        "the text is longer than 1,048,576 bytes",
        "The text is longer than 1,048,576 bytes.",
        "Shorten it; blanks and comments count too.",
    ),
];

/// Which rules of the language a text can break.
static CHECKS: [Row; 10] = [
    (
        1,
        "there is no such name here",
        "There is no variable, type, function, member or action of this name here.",
        "Declare it or correct its spelling; of another block only the inputs and outputs can be seen.",
    ),
    (
        2,
        "this name stands for something else already",
        "This name stands for something else already.",
        "Choose another name; capital and small letters are the same, and the names of standard functions and blocks are taken.",
    ),
    (
        3,
        "this isn't of the type that is wanted here",
        "This isn't of the type that is wanted here, or it is something that can't stand here.",
        "Give a value of the type that is wanted, convert it as by INT_TO_DINT, or use one element or member in place of a whole array, structure or block.",
    ),
    (
        4,
        "this is outside the range of its type",
        "This number or duration is outside the range of its type, or this upper bound is below the lower bound.",
        "Give one that is inside the range, choose a wider type, or swap the bounds.",
    ),
    (
        5,
        "this may not be assigned",
        "This may not be assigned: it is a constant, an input, a step's flag or time, a member of an instance, or the variable of the FOR loop around it; or a FOR loop counts in what is no integer variable declared here.",
        "Assign to another variable, give a block its inputs where it is called, as in `T1(IN := Go);`, and let each FOR loop count in an integer variable of its own.",
    ),
    (
        6,
        "this contains or calls itself",
        "This function, function block or type contains or calls itself, directly or through others.",
        "Take out the call or the member that leads back to it; a loop often does what the call was to do.",
    ),
    (
        7,
        "this call doesn't fit what it calls",
        "This call doesn't fit what it calls, or this EXIT stands in no loop.",
        "Give each argument once, all in order or all by name, and those of a block by name; call a function inside an expression, and a block's instance as a statement.",
    ),
    (
        8,
        "this chart isn't well formed",
        "This chart has no initial step or a second one, or it names a step or a qualifier that there isn't, or a duration is missing or isn't wanted.",
        "Give the chart one INITIAL_STEP, declare each step that it names, and write N, S, R and P without a duration, L and D with one.",
    ),
    (
        9,
        "a limit is passed",
        "A limit is passed: 1,000 types, functions, blocks and programs; 128 bytes for the name of one; 65,536 single variables; 524,288 bytes for their values; 255 bytes for the path of one.",
        "Make arrays smaller, shorten names, or leave out what isn't used.",
    ),
    (
        10,
        "there is no program of this name",
        "The text has no program of the name that was given.",
        "Give the name of one of its programs after `--program`.",
    ),
];

/// Why a line of a session isn't done.
static COMMANDS: [Row; 13] = [
    (
        1,
        "there is no variable of this path",
        "There is no variable of this path.",
        "Write the path from the program's name on, as `Main.A`, and the element of an array as `Main.R[2]`.",
    ),
    (
        2,
        "an operator may not set this variable",
        "An operator may not set this variable: the program keeps it for a chart or inside a block.",
        "Set a variable that the program declares, or one of a block's inputs.",
    ),
    (
        3,
        "this is no value of the variable's type",
        "This is no value of the variable's type.",
        "Write a value that is inside the type's range, without blanks, as `5`, `TRUE`, `16#FF` or `T#1m30s`.",
    ),
    (
        4,
        "this variable is forced",
        "The variable is forced, so it can't be written.",
        "Release it first, or force it to the new value.",
    ),
    (
        5,
        "this variable isn't forced",
        "The variable isn't forced, so it can't be released.",
        "Look at it with `show`, which says `forced` where it is.",
    ),
    (
        6,
        "256 commands can be undone already",
        "256 commands can be undone already, and there is no room for another.",
        "Undo a command first.",
    ),
    (
        7,
        "there is nothing to undo",
        "There is nothing to undo.",
        "Go on: no command is left that could be taken back.",
    ),
    (
        8,
        "a chart would be left without an active step",
        "A chart that the old and the new program both have would be left without an active step.",
        "Keep the active step in the new program, or wait until a step is active that both have.",
    ),
    (
        9,
        "this moment may not come now",
        "The moment is before that of the last scan, or above 1,000,000,000,000,000 milliseconds.",
        "Give a moment that isn't before the one that `status` shows.",
    ),
    (
        10,
        "the program was halted by a fault",
        "The program was halted by a fault.",
        "See with `status` at which fault, correct the program with `change` or its values with `write`, and give `reset`.",
    ),
    (
        11,
        "a session has no such line",
        "A session has no such line, or the text of a change isn't ended.",
        "Write a line as docs/SESSIONS.md lists them, its first word in small letters.",
    ),
    (
        12,
        "this is no input of the main program",
        "A scan was given a value for a variable that isn't an input of the main program.",
        "Give a scan values for the variables under VAR_INPUT alone, and set others with `write`.",
    ),
    (
        13,
        "these renames don't fit",
        "The renames of a change don't fit the old and the new program.",
        "Let each rename `OLD=NEW` name a part of the old program and one of the new, without `$`: no old part twice, no new variable for two old ones, and each step in the place of its chart.",
    ),
];

/// Why a scan ended early.
static FAULTS: [Row; 3] = [
    (
        1,
        "the scan took as many steps as one may take",
        "The scan took as many steps as one may take, and wasn't done.",
        "Look for a loop that goes on too long, or give more steps after `--steps`.",
    ),
    (
        2,
        "a number was divided by zero",
        "A number was divided by zero.",
        "Test the divisor before `/` or MOD, as in `IF Z <> 0 THEN`.",
    ),
    (
        3,
        "an index is outside the bounds of its array",
        "An index is outside the bounds of its array.",
        "Test the index before it is used, or declare a larger array.",
    ),
];

/// The explanation of a number, if the family has it.
pub fn explanation_of(family: Family, number: u8) -> Option<Explanation>
    ensures { option_map meaning_of result ≡ meaning_at family number }
{
    match family {
        Family::Syntax => explanation_in(&SYNTAX, number),
        Family::Check => explanation_in(&CHECKS, number),
        Family::Operator => explanation_in(&COMMANDS, number),
        Family::Fault => explanation_in(&FAULTS, number),
    }
}

/// The explanation of the first row with this number.
fn explanation_in(rows: &[Row], number: u8) -> Option<Explanation>
    ensures { option_map meaning_of result ≡ find (has_number number)
        (map (λ row. meaning row.0 row.1.now row.2.now row.3.now) rows.now) }
{
    let row = rows.iter().find(|row| row.0 == number)?;
    Some(Explanation {
        number: row.0,
        title: row.1,
        sentence: row.2,
        advice: row.3,
    })
}

/// What it means that this rule is broken.
pub fn explanation_of_rule(rule: Rule) -> Explanation
    ensures { Some (meaning_of result) ≡ meaning_at Family.Check (rule_number rule) }
{
    explanation_of(Family::Check, rule.number()).unwrap()
}

/// Each family has the numbers from 1 on, each once.
pub fn numbers_are_listed()
    ensures syntax { map number_of (table_of Family.Syntax) ≡ 1 ∷ 2 ∷ 3 ∷ 4 ∷ [] }
    ensures check { map number_of (table_of Family.Check) ≡ 1 ∷ 2 ∷ 3 ∷ 4 ∷ 5 ∷ 6 ∷ 7 ∷ 8 ∷ 9 ∷ 10 ∷ [] }
    ensures operator { map number_of (table_of Family.Operator)
        ≡ 1 ∷ 2 ∷ 3 ∷ 4 ∷ 5 ∷ 6 ∷ 7 ∷ 8 ∷ 9 ∷ 10 ∷ 11 ∷ 12 ∷ 13 ∷ [] }
    ensures fault { map number_of (table_of Family.Fault) ≡ 1 ∷ 2 ∷ 3 ∷ [] }
{}
