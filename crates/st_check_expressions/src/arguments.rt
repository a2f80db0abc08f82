//! The arguments of a call, by their kinds (2.5.1.4).
ghost use Rattle.std.specs.Prelude.{◌≡◌, IfOk, length, map, not};
ghost use Rattle.st_check_expressions.specs.Known.{is_empty};
ghost use Rattle.st_check_expressions.specs.Nodes.{inputs_of, outputs_of, positional_of, positionals_of};

use st_tree::tree::{Argument, Identifier};
use std::alloc::{AllocError, Global};

/// Whether an argument stands by its position.
pub fn is_positional(argument: &Argument) -> bool
    ensures { result ≡ not (is_empty (positional_of argument.now)) }
{
    matches!(argument, Argument::Positional(_))
}

/// How many arguments stand by their position.
#[tactic(auto, using(crate::proofs::Counts::length_positionals))]
pub fn count_positionals(arguments: &[Argument]) -> usize
    ensures { result ≡ length (positionals_of arguments.now) }
{
    arguments
        .iter()
        .filter(|argument| is_positional(argument))
        .count()
}

/// The names of inputs, in order.
pub fn input_names<'a>(
    alloc: Global,
    arguments: &'a [Argument],
) -> Result<Vec<&'a Identifier>, AllocError>
    ensures { IfOk result (λ names. map (λ n. n.now) names.items ≡ inputs_of arguments.now) }
{
    let mut names = Vec::new(alloc);
    'arguments: for argument in arguments {
        if let Argument::Input(name, _) = argument {
            names.push(name)?;
        }
    }
    Ok(names)
}

/// The names of outputs, in order.
pub fn output_names<'a>(
    alloc: Global,
    arguments: &'a [Argument],
) -> Result<Vec<&'a Identifier>, AllocError>
    ensures { IfOk result (λ names. map (λ n. n.now) names.items ≡ outputs_of arguments.now) }
{
    let mut names = Vec::new(alloc);
    'arguments: for argument in arguments {
        if let Argument::Output(name, _) = argument {
            names.push(name)?;
        }
    }
    Ok(names)
}
