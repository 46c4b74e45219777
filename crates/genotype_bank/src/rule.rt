// The rule of a bank's table, and what each of its steps tells.
use crate::catalog::Catalog;
use crate::view::View;
use atomic_table::{Join, Play, Split, Table, TableRule};
use std::alloc::Global;

/// The rule that each step keeps.
pub(crate) struct BankRule;

impl TableRule<Option<Catalog>, View, ()> for BankRule {
    ghost use Rattle.genotype_bank.specs.BankTable.{IsBankTable};
    ghost use Rattle.genotype_bank.specs.Views.{first_view};

    ghost holds = { λ _ s. IsBankTable s };

    ghost first = { λ _. first_view };
}

/// A turn is drawn.
pub(crate) struct Draw;

impl Play<Option<Catalog>, View> for Draw {
    ghost use Rattle.genotype_bank.specs.BankSteps.{HasDrawn};

    ghost then = { HasDrawn };
}

/// The seat looks whose turn it is.
pub(crate) struct Look;

impl Play<Option<Catalog>, View> for Look {
    ghost use Rattle.genotype_bank.specs.BankSteps.{HasLooked};

    ghost then = { HasLooked };
}

/// The turn is passed on.
pub(crate) struct Release;

impl Play<Option<Catalog>, View> for Release {
    ghost use Rattle.genotype_bank.specs.BankSteps.{HasReleased};

    ghost then = { HasReleased };
}

/// A joined seat learns from the seats that it was joined from.
pub(crate) struct Recall;

impl Play<Option<Catalog>, View> for Recall {
    ghost use Rattle.genotype_bank.specs.BankSteps.{HasRecalled};

    ghost then = { HasRecalled };
}

/// How shares go from seat to seat.
pub(crate) struct Shares;

impl Split<View> for Shares {
    ghost use Rattle.genotype_bank.specs.BankSteps.{kept_half, new_half};

    ghost left = { kept_half };

    ghost right = { new_half };
}

impl Join<View> for Shares {
    ghost use Rattle.genotype_bank.specs.BankSteps.{joined_view};
    ghost use Rattle.genotype_bank.specs.Views.{spent_view};

    ghost both = { joined_view };

    ghost spent = { spent_view };
}

pub(crate) type BankTable = Table<Option<Catalog>, View, (), BankRule, Global>;

pub(crate) type Pass = atomic_table::Seat<Option<Catalog>, View>;
