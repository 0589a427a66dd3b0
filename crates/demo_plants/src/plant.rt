//! The demo plants.

ghost use Rattle.std.specs.Prelude.{◌≡◌, ◌+◌, ◌-◌, ◌*◌, ◌++◌, codes, IfOk, OnOk};
ghost use Rattle.std.specs.Fmt.{decimal};
ghost use Rattle.command_line.specs.Command.{IsDemoNumber};
ghost use Rattle.demo_plants.specs.Demo.{demo_plant_of, demo_text};

use crate::generator::push_part;
use plant_record::Plant;
use plant_text::{PlantFault, read_plant};
use run_devices::NoMemory;
use std::alloc::{AllocError, Global};

/// The n-th demo plant: a cart on a line of 600 n positions.
pub fn demo_plant(alloc: Global, n: u32) -> Result<Plant, NoMemory>
    requires { IsDemoNumber n }
    ensures { IfOk result (λ p. p ≡ demo_plant_of n) }
{
    let text = demo_text(alloc, n)?;
    match read_plant(alloc, &text) {
        Ok(plant) => Ok(plant),
        Err(PlantFault::Memory) => Err(NoMemory),
        Err(_) => unreachable!(),
    }
}

fn demo_text(alloc: Global, n: u32) -> Result<Vec<u8>, AllocError>
    requires { IsDemoNumber n }
    ensures { IfOk result (λ text. text.items ≡ demo_text n) }
{
    let mut text = Vec::new(alloc);
    push_part(&mut text, b"plant 1\nstate p 0 ", 600 * n - 1)?;
    text.extend_from_slice(b" 10\nstate v -100 99 10\ninput a -20 -15 0 15 20\n")?;
    text.extend_from_slice(b"noise w -2 2\nnext p = p + v / 5\nnext v = v + a + w\n")?;
    push_box(&mut text, b"target ", 400 * n, 560 * n - 1, b" -50 49\n")?;
    let (forth, back) = (200 * n, 300 * n);
    push_box(&mut text, b"obstacle ", forth, forth + 19, b" 80 99\n")?;
    push_box(&mut text, b"obstacle ", back, back + 9, b" -100 -81\n")?;
    text.extend_from_slice(b"goal reach\nend\n")?;
    Ok(text)
}

/// The line of a box: its positions, and its speeds as they are written.
fn push_box(
    text: &mut Vec<u8>,
    keyword: &[u8],
    low: u32,
    high: u32,
    speeds: &[u8],
) -> Result<(), AllocError>
    ensures { OnOk result (text.new.items ≡ text.old.items ++ keyword.now ++ decimal low ++ codes " " ++ decimal high ++ speeds.now) }
{
    push_part(text, keyword, low)?;
    push_part(text, b" ", high)?;
    text.extend_from_slice(speeds)
}
