// The numbers and truths of a configuration, all groups of them.
ghost use Rattle.std.specs.Prelude.{◌≡◌, None, Some, IfOk, IfErr, OnOk};
ghost use Rattle.world_config.specs.Prelude.{table_view};

use crate::event_forms::Frame;
use crate::groups::{DivideKeys, LengthKeys, LifeKeys, PlaceKeys};
use crate::rates::rates_in;
use crate::stop::ConfigStop;
use mutations::Rates;
use toml::Table;

/// The values of the keys before the ancestor.
#[derive(Clone, Copy)]
pub(crate) struct Numbers {
    pub place: PlaceKeys,
    pub life: LifeKeys,
    pub rates: Rates,
    pub divide: DivideKeys,
    pub lengths: LengthKeys,
}

impl Numbers {
    ghost use Rattle.world_config.specs.Refusal.{first_refusal};
    ghost use Rattle.world_config.specs.Groups.{AreNumbers, numbers_frame, number_keys};
    ghost use Rattle.world_config.specs.Events.{frame_value};

    pub(crate) fn read(table: &Table) -> Result<Numbers, ConfigStop>
        ensures value { IfOk result (AreNumbers (table_view table.now)) }
        ensures accepted { OnOk result (first_refusal number_keys (table_view table.now) ≡ None) }
        ensures refused { IfErr result (λ stop. first_refusal number_keys (table_view table.now)
            ≡ Some stop) }
    {
        let place = PlaceKeys::read(table)?;
        let life = LifeKeys::read(table)?;
        let rates = rates_in(table)?;
        let divide = DivideKeys::read(table)?;
        let lengths = LengthKeys::read(table)?;
        Ok(Numbers {
            place,
            life,
            rates,
            divide,
            lengths,
        })
    }

    /// The numbers that events keep to.
    pub(crate) fn frame(&self) -> Frame
        ensures { frame_value result ≡ numbers_frame self.now }
    {
        Frame {
            last_cell: self.place.width * self.place.height - 1,
            updates: self.place.updates,
            least_length: self.lengths.least_length,
            greatest_length: self.lengths.greatest_length,
        }
    }
}
