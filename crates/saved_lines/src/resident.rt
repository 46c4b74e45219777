use organism::Image;

/// An organism of a saved world, in its cell.
#[derive(Drop)]
pub struct Resident {
    pub cell: u32,
    pub id: u64,
    pub image: Image,
}
