// Streams and records of birth (docs/WORLD.md).
ghost use Rattle.std.specs.Prelude.{◌≡◌, [], ◌∷◌, None, Some, Ok, Err, replicate, take, true, false};
ghost use Rattle.instruction_set.specs.declared.letter.Letter.TheVariants.{NopA, NopB, NopC};
ghost use Rattle.random_streams.specs.RandomStream.{stream_number, key_bytes, scaled, hits};
ghost use Rattle.random_streams.specs.declared.purpose.Purpose.TheVariants.{Place};
ghost use Rattle.mutations.specs.BirthRecord.{child_of};
ghost use Rattle.mutations.specs.declared.change.Change.TheVariants as change;
ghost use Rattle.mutations.specs.declared.stop.ApplyStop.TheVariants as stop;

pub fn a_stream_has_its_number_and_its_key()
    ensures number { stream_number 3 5 Place ≡ 393227 }
    ensures key { take 8 (key_bytes 258) ≡ 2 ∷ 1 ∷ replicate 6 0 }
    ensures least { scaled 0 26 ≡ 0 }
    ensures greatest { scaled 4294967295 26 ≡ 25 }
    ensures last_hit { hits 32212254 7500 ≡ true }
    ensures first_miss { hits 32212255 7500 ≡ false }
{}

pub fn a_record_makes_a_child_or_names_its_first_faulty_change()
    ensures in_turn { child_of (replicate 8 NopA) (record {
      written = None;
      changes = change.Point 3 NopB ∷ change.Insert 0 NopC ∷ change.Delete 8 ∷ [];
    }) ≡ Ok (NopC ∷ NopA ∷ NopA ∷ NopA ∷ NopB ∷ NopA ∷ NopA ∷ NopA ∷ []) }
    ensures past_the_end { child_of (replicate 8 NopA) (record {
      written = None;
      changes = change.Insert 9 NopC ∷ [];
    }) ≡ Err (stop.Place 1) }
    ensures too_short { child_of (replicate 8 NopA) (record {
      written = None;
      changes = change.Delete 0 ∷ [];
    }) ≡ Err (stop.Length 1) }
    ensures written { child_of (replicate 8 NopA) (record {
      written = Some (replicate 8 NopB);
      changes = [];
    }) ≡ Ok (replicate 8 NopB) }
{}
