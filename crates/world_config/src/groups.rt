// The numbers and truths of a configuration, in groups of keys that stand together.
#![tactic(auto, unfolding(crate::specs::Refusal::refusal_at, crate::specs::Lookup::number_at, crate::specs::Lookup::flag_at))]

ghost use Rattle.std.specs.Prelude.{◌≡◌, IfOk};
ghost use Rattle.std.specs.Result.{result_err};
ghost use Rattle.toml.specs.View.{table_view};
ghost use Rattle.mutations.specs.RecordForm.{IsWithin};
ghost use Rattle.world_config.specs.KeyTable.{last_cell_of};

use crate::key::Key;
use crate::limits::{GREATEST_AGE, GREATEST_AVERAGE, GREATEST_PERCENT, GREATEST_UPDATES};
use crate::lookup::{flag, number, seed};
use crate::stop::ConfigStop;
use genome::{GREATEST_LENGTH, LEAST_LENGTH};
use random_streams::GREATEST_SIDE;
use toml::Table;

/// Where and how long a run goes.
#[derive(Clone, Copy)]
pub(crate) struct PlaceKeys {
    pub width: u32,
    pub height: u32,
    pub updates: u32,
    pub seed: u64,
    pub founder_cell: u32,
    ghost width_bounds: { IsWithin 1 256 width },
    ghost height_bounds: { IsWithin 1 256 height },
    ghost updates_bounds: { IsWithin 0 1000000 updates },
    ghost seed_bounds: { IsWithin 0 9223372036854775807 seed },
    ghost founder_cell_bounds: { IsWithin 0 (last_cell_of width height) founder_cell },
}

/// How long an organism runs and lives.
#[derive(Clone, Copy)]
pub(crate) struct LifeKeys {
    pub average_slices: u32,
    pub death: bool,
    pub age_limit: u32,
    ghost average_slices_bounds: { IsWithin 1 1000 average_slices },
    ghost age_limit_bounds: { IsWithin 1 1000 age_limit },
}

/// What a birth asks.
#[derive(Clone, Copy)]
pub(crate) struct DivideKeys {
    pub prefer_empty: bool,
    pub need_alloc: bool,
    pub executed_percent: u32,
    pub copied_percent: u32,
    ghost executed_percent_bounds: { IsWithin 1 100 executed_percent },
    ghost copied_percent_bounds: { IsWithin 1 100 copied_percent },
}

/// The lengths of genomes and of memory.
#[derive(Clone, Copy)]
pub(crate) struct LengthKeys {
    pub least_length: u32,
    pub greatest_length: u32,
    pub memory_limit: u32,
    ghost least_length_bounds: { IsWithin 8 8192 least_length },
    ghost greatest_length_bounds: { IsWithin least_length 8192 greatest_length },
    ghost memory_limit_bounds: { IsWithin greatest_length 8192 memory_limit },
}

impl PlaceKeys {
    ghost use Rattle.world_config.specs.Refusal.{first_refusal};
    ghost use Rattle.world_config.specs.Groups.{ArePlace, place_keys};

    pub(crate) fn read(table: &Table) -> Result<PlaceKeys, ConfigStop>
        ensures value { IfOk result (ArePlace (table_view table.now)) }
        ensures refusal { first_refusal place_keys (table_view table.now) ≡ result_err result }
    {
        let width = number(table, Key::Width, 60, 1, GREATEST_SIDE)?;
        let height = number(table, Key::Height, 60, 1, GREATEST_SIDE)?;
        let updates = number(table, Key::Updates, 100, 0, GREATEST_UPDATES)?;
        let seed = seed(table)?;
        let founder_cell = number(table, Key::FounderCell, 0, 0, width * height - 1)?;
        Ok(PlaceKeys {
            width,
            height,
            updates,
            seed,
            founder_cell,
        })
    }
}

impl LifeKeys {
    ghost use Rattle.world_config.specs.Refusal.{first_refusal};
    ghost use Rattle.world_config.specs.Groups.{AreLife, life_keys};

    pub(crate) fn read(table: &Table) -> Result<LifeKeys, ConfigStop>
        ensures value { IfOk result (AreLife (table_view table.now)) }
        ensures refusal { first_refusal life_keys (table_view table.now) ≡ result_err result }
    {
        let average_slices = number(table, Key::AverageSlices, 30, 1, GREATEST_AVERAGE)?;
        let death = flag(table, Key::Death, true)?;
        let age_limit = number(table, Key::AgeLimit, 20, 1, GREATEST_AGE)?;
        Ok(LifeKeys {
            average_slices,
            death,
            age_limit,
        })
    }
}

impl DivideKeys {
    ghost use Rattle.world_config.specs.Refusal.{first_refusal};
    ghost use Rattle.world_config.specs.Groups.{AreDivide, divide_keys};

    pub(crate) fn read(table: &Table) -> Result<DivideKeys, ConfigStop>
        ensures value { IfOk result (AreDivide (table_view table.now)) }
        ensures refusal { first_refusal divide_keys (table_view table.now) ≡ result_err result }
    {
        let prefer_empty = flag(table, Key::PreferEmpty, true)?;
        let need_alloc = flag(table, Key::NeedAlloc, true)?;
        let executed_percent = number(table, Key::ExecutedPercent, 50, 1, GREATEST_PERCENT)?;
        let copied_percent = number(table, Key::CopiedPercent, 50, 1, GREATEST_PERCENT)?;
        Ok(DivideKeys {
            prefer_empty,
            need_alloc,
            executed_percent,
            copied_percent,
        })
    }
}

impl LengthKeys {
    ghost use Rattle.world_config.specs.Refusal.{first_refusal};
    ghost use Rattle.world_config.specs.Groups.{AreLengths, length_keys};

    pub(crate) fn read(table: &Table) -> Result<LengthKeys, ConfigStop>
        ensures value { IfOk result (AreLengths (table_view table.now)) }
        ensures refusal { first_refusal length_keys (table_view table.now) ≡ result_err result }
    {
        let least_length = number(table, Key::LeastLength, 8, LEAST_LENGTH, GREATEST_LENGTH)?;
        let greatest_length = number(
            table,
            Key::GreatestLength,
            2048,
            least_length,
            GREATEST_LENGTH,
        )?;
        let most = greatest_length.max(2048);
        let memory_limit = number(
            table,
            Key::MemoryLimit,
            most,
            greatest_length,
            GREATEST_LENGTH,
        )?;
        Ok(LengthKeys {
            least_length,
            greatest_length,
            memory_limit,
        })
    }
}
