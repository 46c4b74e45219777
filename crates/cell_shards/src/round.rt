use organism::Settings;

/// What all lives of an update share.
#[derive(Clone, Copy, Debug)]
pub struct Round {
    pub seed: u64,
    pub update: u32,
    pub settings: Settings,
}
