// Those that died of age have their lines.
ghost use Rattle.std.specs.Prelude.{◌≡◌, ◌++◌, ◌∷◌, [], OnOk, map};
ghost use Rattle.world_core.specs.Prelude.{lines_text, line_text};
ghost use Rattle.world_core.specs.Endings.{departure_line, departures_in};

use crate::lived::{Lived, id_in};
use crate::scene::Scene;
use avida_port::Memory;
use log_lines::{LogLine, write_line};

/// Those that died of age, and left their cells, are among the dead of the update, with a line for
/// each. After `Memory` drop the scene.
pub(crate) fn bury(scene: &mut Scene, lived: &Lived, text: &mut Vec<u8>) -> Result<(), Memory>
    ensures scene { OnOk result (scene.new ≡ record scene.old {
      gone = scene.old.gone ++ map (λ one. one.1) (departures_in lived.now);
    }) }
    ensures text { OnOk result (text.new.items ≡ text.old.items
        ++ lines_text (map (departure_line scene.old.update) (departures_in lived.now))) }
{
    for cell in &lived.died {
        let id = id_in(&lived.ids, *cell);
        bury_one(scene, *cell, id, text)?;
    }
    Ok(())
}

/// One that died of age, and left its cell, is among the dead, with its line.
fn bury_one(scene: &mut Scene, cell: u32, id: u64, text: &mut Vec<u8>) -> Result<(), Memory>
    ensures scene { OnOk result (scene.new
        ≡ record scene.old { gone = scene.old.gone ++ id ∷ [] }) }
    ensures text { OnOk result (text.new.items
        ≡ text.old.items ++ line_text (departure_line scene.old.update (cell, id))) }
{
    let update = scene.update;
    write_line(&LogLine::Death { id, update, cell }, text)?;
    scene.add_departure(id)
}
