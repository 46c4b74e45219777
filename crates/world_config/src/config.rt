// A configuration, whose type keeps its bounds.
ghost use Rattle.std.specs.Prelude.{◌≡◌, length};
ghost use Rattle.world_config.specs.Prelude.{letters, IsWithin};
ghost use Rattle.world_config.specs.KeyTable.{frame_of, last_cell_of};
ghost use Rattle.world_config.specs.Events.{AreEvents, event_values};

use crate::event_tables::{event_tables, letters_of, number_value};
use crate::events::{Events, copy_of};
use crate::key::Key;
use crate::numbers::Numbers;
use crate::reading::config_in;
use avida_port::Memory;
use genome::Genome;
use std::alloc::{AllocError, Global};
use toml::{Table, Value};

/// The configuration of a run: a field for each key, whose type keeps the key's bounds.
#[derive(Drop)]
pub struct Config {
    pub width: u32,
    pub height: u32,
    pub updates: u32,
    pub seed: u64,
    pub founder_cell: u32,
    pub average_slices: u32,
    pub death: bool,
    pub age_limit: u32,
    pub copy_error: u32,
    pub divide_insert: u32,
    pub divide_delete: u32,
    pub site_point: u32,
    pub site_insert: u32,
    pub site_delete: u32,
    pub prefer_empty: bool,
    pub need_alloc: bool,
    /// How much of the parent, and of the child's place, a divide asks to be executed and copied.
    pub executed_percent: u32,
    pub copied_percent: u32,
    pub least_length: u32,
    pub greatest_length: u32,
    pub memory_limit: u32,
    pub ancestor: Genome,
    pub event: Events,
    pub ghost width_bounds: { IsWithin 1 256 width },
    pub ghost height_bounds: { IsWithin 1 256 height },
    pub ghost updates_bounds: { IsWithin 0 1000000 updates },
    pub ghost seed_bounds: { IsWithin 0 9223372036854775807 seed },
    pub ghost founder_cell_bounds: { IsWithin 0 (last_cell_of width height) founder_cell },
    pub ghost average_slices_bounds: { IsWithin 1 1000 average_slices },
    pub ghost age_limit_bounds: { IsWithin 1 1000 age_limit },
    pub ghost copy_error_bounds: { IsWithin 0 1000000 copy_error },
    pub ghost divide_insert_bounds: { IsWithin 0 1000000 divide_insert },
    pub ghost divide_delete_bounds: { IsWithin 0 1000000 divide_delete },
    pub ghost site_point_bounds: { IsWithin 0 1000000 site_point },
    pub ghost site_insert_bounds: { IsWithin 0 1000000 site_insert },
    pub ghost site_delete_bounds: { IsWithin 0 1000000 site_delete },
    pub ghost executed_percent_bounds: { IsWithin 1 100 executed_percent },
    pub ghost copied_percent_bounds: { IsWithin 1 100 copied_percent },
    pub ghost least_length_bounds: { IsWithin 8 8192 least_length },
    pub ghost greatest_length_bounds: { IsWithin least_length 8192 greatest_length },
    pub ghost memory_limit_bounds: { IsWithin greatest_length 8192 memory_limit },
    pub ghost ancestor_bounds: { IsWithin least_length greatest_length
        (length (letters ancestor)) },
    pub ghost event_bounds: { AreEvents (frame_of width height updates least_length greatest_length)
        (event_values event) },
}

impl Config {
    ghost use Rattle.std.specs.Prelude.{◌≤◌, IfOk};
    ghost use Rattle.toml.specs.Data.{Members, no_members};
    ghost use Rattle.toml.specs.View.{view};
    ghost use Rattle.world_config.specs.Lookup.{genome_at};
    ghost use Rattle.world_config.specs.Config.{config_in, values_in_table};
    ghost use Rattle.world_config.specs.Groups.{AreNumbers, numbers_frame, printed_at};
    ghost use Rattle.world_config.specs.Values.{values_of};

    /// The configuration of these numbers, with this ancestor and these events.
    pub(crate) fn of_numbers(numbers: &Numbers, ancestor: Genome, event: Events) -> Config
        requires ancestor_bounds { IsWithin numbers.now.lengths.least_length
            numbers.now.lengths.greatest_length (length (letters ancestor)) }
        requires event_bounds { AreEvents (numbers_frame numbers.now) (event_values event) }
        ensures { (ms : Members) → AreNumbers ms numbers.now
            → genome_at Key.Ancestor ms ≡ letters ancestor
            → values_in_table ms (event_values event) ≡ values_of result }
    {
        let Numbers {
            place,
            life,
            rates,
            divide,
            lengths,
        } = *numbers;
        Config {
            width: place.width,
            height: place.height,
            updates: place.updates,
            seed: place.seed,
            founder_cell: place.founder_cell,
            average_slices: life.average_slices,
            death: life.death,
            age_limit: life.age_limit,
            copy_error: rates.copy,
            divide_insert: rates.insert,
            divide_delete: rates.delete,
            site_point: rates.site_point,
            site_insert: rates.site_insert,
            site_delete: rates.site_delete,
            prefer_empty: divide.prefer_empty,
            need_alloc: divide.need_alloc,
            executed_percent: divide.executed_percent,
            copied_percent: divide.copied_percent,
            least_length: lengths.least_length,
            greatest_length: lengths.greatest_length,
            memory_limit: lengths.memory_limit,
            ancestor,
            event,
        }
    }

    /// The configuration of a document without keys: each key has its default.
    pub fn plain(alloc: Global) -> Result<Config, Memory>
        ensures { IfOk result (λ config. config_in no_members ≡ Ok (values_of config)) }
    {
        match config_in(alloc, &Table::new(alloc)) {
            Ok(config) => Ok(config),
            Err(_) => Err(Memory),
        }
    }

    /// The same configuration with this seed.
    pub fn with_seed(&self, alloc: Global, seed: u64) -> Result<Config, Memory>
        requires { seed ≤ 9223372036854775807 }
        ensures { IfOk result (λ config. values_of config ≡ record (values_of self.now)
            { seed = seed }) }
    {
        let ancestor = self.ancestor.copy(alloc)?;
        let event = copy_of(alloc, self.event.as_slice())?;
        Ok(Config {
            width: self.width,
            height: self.height,
            updates: self.updates,
            seed,
            founder_cell: self.founder_cell,
            average_slices: self.average_slices,
            death: self.death,
            age_limit: self.age_limit,
            copy_error: self.copy_error,
            divide_insert: self.divide_insert,
            divide_delete: self.divide_delete,
            site_point: self.site_point,
            site_insert: self.site_insert,
            site_delete: self.site_delete,
            prefer_empty: self.prefer_empty,
            need_alloc: self.need_alloc,
            executed_percent: self.executed_percent,
            copied_percent: self.copied_percent,
            least_length: self.least_length,
            greatest_length: self.greatest_length,
            memory_limit: self.memory_limit,
            ancestor,
            event,
        })
    }

    /// What a document that is printed has at the key.
    pub(crate) fn printed_at(&self, alloc: Global, key: Key) -> Result<Value, AllocError>
        ensures { IfOk result (λ value. view value ≡ printed_at (values_of self.now) key) }
    {
        match key {
            Key::Width => Ok(number_value(self.width)),
            Key::Height => Ok(number_value(self.height)),
            Key::Updates => Ok(number_value(self.updates)),
            Key::Seed => Ok(Value::from(self.seed as i64)),
            Key::FounderCell => Ok(number_value(self.founder_cell)),
            Key::AverageSlices => Ok(number_value(self.average_slices)),
            Key::Death => Ok(Value::from(self.death)),
            Key::AgeLimit => Ok(number_value(self.age_limit)),
            Key::CopyError => Ok(number_value(self.copy_error)),
            Key::DivideInsert => Ok(number_value(self.divide_insert)),
            Key::DivideDelete => Ok(number_value(self.divide_delete)),
            Key::SitePoint => Ok(number_value(self.site_point)),
            Key::SiteInsert => Ok(number_value(self.site_insert)),
            Key::SiteDelete => Ok(number_value(self.site_delete)),
            Key::PreferEmpty => Ok(Value::from(self.prefer_empty)),
            Key::NeedAlloc => Ok(Value::from(self.need_alloc)),
            Key::ExecutedPercent => Ok(number_value(self.executed_percent)),
            Key::CopiedPercent => Ok(number_value(self.copied_percent)),
            Key::LeastLength => Ok(number_value(self.least_length)),
            Key::GreatestLength => Ok(number_value(self.greatest_length)),
            Key::MemoryLimit => Ok(number_value(self.memory_limit)),
            Key::Ancestor => Ok(Value::from(letters_of(alloc, &self.ancestor)?)),
            Key::Event => Ok(Value::Array(event_tables(alloc, self.event.as_slice())?)),
        }
    }
}
