//! Running a program once.
ghost use Rattle.std.specs.Prelude.{◌≡◌, Err, MatchResult, Ok};
ghost use Rattle.st_check.specs.Programs.{leaves_of_program};
ghost use Rattle.st_chart_runs.specs.Views.{setting_at};
ghost use Rattle.st_compile.specs.Programs.{HasRoom, scan_result};
ghost use Rattle.st_compile.specs.Typed.{IsMainTyping, typed_result};
ghost use Rattle.st_meaning.specs.Terms.{Body};
ghost use Rattle.st_compile.specs.TypedPrograms.{IsTyped};
ghost use Rattle.st_types.specs.Names.{Named};

use crate::image::Image;
use crate::{
    checked_calls_are_those_of_their_bodies, checked_functions_call_below,
    checked_functions_have_no_instances, checked_programs_are_typed, sound_bodies_call_what_passes,
    typings_are_one,
};
use st_check::checked_program_is_small;
use st_code::{
    code_calls_functions, code_does_as_commands_mean, code_enters_what_is_invoked,
    code_is_of_its_chart, depth_is_at_most_the_length, typing_enters_instances,
    typing_invokes_bodies,
};
use st_machine::{Stacks, run_fused};
use st_meaning::{RunFault, bodies_keep_the_frame, calls_are_sound, typing_gives_sound_units};
use st_memory::Memory;
use st_places::{instances_are_of_blocks, units_are_sound};

/// Runs a program once, over the values of its leaves, at a moment in milliseconds. What it gives is what the program's typing means,
/// in which nothing of the program is taken as nothing. It takes no memory.
///
/// # Errors
/// At a fault; then the values of leaves that aren't forced aren't said.
pub fn run<M: Memory>(
    image: &Image,
    memory: &mut M,
    stacks: &mut Stacks,
    now: i64,
    limit: u32,
) -> Result<(), RunFault>
    requires over { M.IsOver (leaves_of_program image.now) memory.old }
    requires room { HasRoom image.now stacks.old }
    ensures over { M.IsOver (leaves_of_program image.now) memory.new }
    ensures room { HasRoom image.now stacks.new }
    ensures forced { (M.content (leaves_of_program image.now) memory.new).forced
        ≡ (M.content (leaves_of_program image.now) memory.old).forced }
    ensures result { MatchResult result
        (λ done. scan_result image.now
        (setting_at now (M.content (leaves_of_program image.now) memory.old).forced)
        (M.content (leaves_of_program image.now) memory.old).values limit
        ≡ Ok (M.content (leaves_of_program image.now) memory.new).values)
        (λ fault. scan_result image.now
        (setting_at now (M.content (leaves_of_program image.now) memory.old).forced)
        (M.content (leaves_of_program image.now) memory.old).values limit ≡ Err fault) }
    ensures typed { IsTyped image.now }
    ensures meaning { (unit : Named) (body : Body) → IsMainTyping image.now unit body
        → MatchResult result (λ done. typed_result image.now unit body
        (setting_at now (M.content (leaves_of_program image.now) memory.old).forced)
        (M.content (leaves_of_program image.now) memory.old).values limit
        ≡ Ok (M.content (leaves_of_program image.now) memory.new).values)
        (λ fault. typed_result image.now unit body
        (setting_at now (M.content (leaves_of_program image.now) memory.old).forced)
        (M.content (leaves_of_program image.now) memory.old).values limit ≡ Err fault) }
{
    checked_program_is_small();
    units_are_sound();
    instances_are_of_blocks();
    typing_gives_sound_units();
    bodies_keep_the_frame();
    code_does_as_commands_mean();
    depth_is_at_most_the_length();
    typing_invokes_bodies();
    typing_enters_instances();
    code_enters_what_is_invoked();
    code_calls_functions();
    code_is_of_its_chart();
    sound_bodies_call_what_passes();
    checked_functions_call_below();
    checked_functions_have_no_instances();
    checked_calls_are_those_of_their_bodies();
    calls_are_sound();
    checked_programs_are_typed();
    typings_are_one();
    let _main = image.program().main();
    match run_fused(
        image.code(),
        image.units(),
        memory,
        image.layout(),
        stacks,
        now,
        limit,
    ) {
        Ok(()) => Ok(()),
        Err(halt) => Err(RunFault {
            kind: halt.kind,
            unit: image.faulty(halt.unit),
            line: halt.line,
        }),
    }
}
