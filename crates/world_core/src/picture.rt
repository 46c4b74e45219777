// The picture of a world, for who watches a run.
ghost use Rattle.std.specs.Prelude.{◌≡◌, ◌++◌, ◌∷◌, [], OnErr, OnOk, decimal, option_map};
ghost use Rattle.world_core.specs.Prelude.{dominant_value, Keeps, words_text, values_of};
ghost use Rattle.world_rules.specs.Picture.{dominant_words, picture_of, picture_text};

use avida_port::Memory;
use census::Dominant;
use genome::letters_text;
use log_lines::{write_byte, write_number};
use published_world::Picture;
use std::alloc::Global;
use std::marker::Model;
use std::sync::Arc;
use world_config::Config;

/// A configuration as contracts see it, which all pictures of a run are of. No value of it is made.
#[derive(Drop)]
pub struct ConfigShown {
    pub config: Arc<Config, Global>,
}

impl Model for ConfigShown {
    ghost use Rattle.world_config.specs.Values.{values_of};
    ghost use Rattle.world_config.specs.Values.{ConfigValues};

    ghost Value = { ConfigValues };

    ghost view = { λ s. values_of s.config.value };
}

/// What a world shows after an update. Only `World::picture` makes one, and its type keeps that it
/// shows that world.
#[derive(Drop)]
pub struct WorldPicture {
    pub config: Arc<Config, Global>,
    pub update: u32,
    pub living: u64,
    pub genotypes: u64,
    pub merit: u64,
    /// None exactly in an empty world.
    pub dominant: Option<Dominant>,
    pub ghost shown: { picture_of (values_of config.value) update ≡ record {
      update = update;
      living = living;
      genotypes = genotypes;
      merit = merit;
      dominant = option_map dominant_value dominant;
    } },
}

impl Picture for WorldPicture {
    ghost use Rattle.world_config.specs.Values.{values_of};

    type Of = ConfigShown;

    ghost of = { λ p. values_of p.config.value };

    ghost number = { λ p. p.update };

    fn number(&self) -> u64 {
        u64::from(self.update)
    }
}

/// Appends the line of a picture, with its newline. When memory runs out `out` stays as it was.
pub fn picture_line(picture: &WorldPicture, out: &mut Vec<u8>) -> Result<(), Memory>
    ensures ok { OnOk result (out.new.items ≡ out.old.items
        ++ picture_text (picture_of (values_of picture.now.config.value) picture.now.update)) }
    ensures err { OnErr result (out.new.items ≡ out.old.items) }
{
    let before = out.len();
    match write_picture(picture, out) {
        Ok(()) => Ok(()),
        Err(_) => {
            out.truncate(before);
            Err(Memory)
        }
    }
}

/// The same; when memory runs out `out` begins with what it held before.
#[tactic(auto, unfolding(world_rules::specs::Picture::picture_text), using(log_lines::proofs::KeptLemmas::keeps_front))]
fn write_picture(picture: &WorldPicture, out: &mut Vec<u8>) -> Result<(), Memory>
    ensures ok { OnOk result (out.new.items ≡ out.old.items
        ++ picture_text (picture_of (values_of picture.now.config.value) picture.now.update)) }
    ensures err { OnErr result (Keeps out.old.items out.new.items) }
{
    write_byte(b'W', out)?;
    write_number(b' ', u64::from(picture.update), out)?;
    write_counts(picture, out)?;
    write_dominant(&picture.dominant, out)?;
    write_byte(b'\n', out)
}

/// How many live, their genotypes, and the sum of their merits.
#[tactic(auto, using(log_lines::proofs::KeptLemmas::keeps_front))]
fn write_counts(picture: &WorldPicture, out: &mut Vec<u8>) -> Result<(), Memory>
    ensures ok { OnOk result (out.new.items ≡ out.old.items
        ++ words_text (decimal picture.now.living ∷ decimal picture.now.genotypes
        ∷ decimal picture.now.merit ∷ [])) }
    ensures err { OnErr result (Keeps out.old.items out.new.items) }
{
    write_number(b' ', picture.living, out)?;
    write_number(b' ', picture.genotypes, out)?;
    write_number(b' ', picture.merit, out)
}

/// The count and the letters of the dominant genome; in an empty world 0 and a dash.
#[tactic(auto, using(log_lines::proofs::KeptLemmas::keeps_front))]
fn write_dominant(dominant: &Option<Dominant>, out: &mut Vec<u8>) -> Result<(), Memory>
    ensures ok { OnOk result (out.new.items ≡ out.old.items
        ++ words_text (dominant_words (option_map dominant_value dominant.now))) }
    ensures err { OnErr result (Keeps out.old.items out.new.items) }
{
    match dominant {
        Some(dominant) => {
            write_number(b' ', dominant.count, out)?;
            write_byte(b' ', out)?;
            letters_text(&dominant.genome, out)
        }
        None => {
            write_number(b' ', 0, out)?;
            write_byte(b' ', out)?;
            write_byte(b'-', out)
        }
    }
}
