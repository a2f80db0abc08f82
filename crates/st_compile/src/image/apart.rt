//! What an image holds: the fields that are named here and no others.
ghost use Rattle.std.specs.Prelude.{◌≡◌};
ghost use Rattle.st_check.specs.Programs.{leaves_of_program};
ghost use Rattle.st_compile.specs.Programs.{program_code, program_depth, program_names, program_rooms, program_units};

use crate::image::Image;
use st_check::Program;
use st_code::Fused;
use st_layout::Layout;
use st_machine::{Room, Units};
use st_tree::Name;

/// Takes an image apart. The pattern names all its fields. What stands beside the program is what its functions give.
fn image_apart(
    image: &Image,
) -> (
    &Program,
    &Layout,
    (&Fused, &Units),
    (usize, &[Room]),
    &[Name],
)
    ensures program { result.0.now ≡ image.now }
    ensures layout { result.1.now ≡ leaves_of_program image.now }
    ensures code { result.2.0.now ≡ program_code image.now }
    ensures units { result.2.1.now ≡ program_units image.now }
    ensures depth { result.3.0 ≡ program_depth image.now }
    ensures rooms { result.3.1.now ≡ program_rooms image.now }
    ensures names { result.4.now ≡ program_names image.now }
{
    let Image {
        program,
        layout,
        code,
        units,
        depth,
        rooms,
        names,
    } = image;
    (
        program,
        layout,
        (code, units),
        (*depth, rooms.as_slice()),
        names.as_slice(),
    )
}
