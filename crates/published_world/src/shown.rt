// What readers take.
ghost use Rattle.std.specs.Prelude.{◌≡◌, IfOk};
ghost use Rattle.published_world.specs.PublicationHistory.{count_and_picture};

use left_right::Absorb;
use std::alloc::AllocError;
use std::sync::Arc;

/// The last picture, and how many there are.
#[derive(Drop)]
pub struct Shown<P> {
    pub picture: Arc<P>,
    pub count: u64,
}

impl<P: Drop> Shown<P> {
    /// The same picture and count.
    pub fn copy(&self) -> Result<Shown<P>, AllocError>
        ensures { IfOk result (λ copy. count_and_picture copy ≡ count_and_picture self.now) }
    {
        Ok(Shown {
            picture: Arc::try_clone(&self.picture)?,
            count: self.count,
        })
    }
}

/// What was shown last takes the place of what was shown before.
impl<P: Drop> Absorb<Shown<P>> for Shown<P> {
    ghost use Rattle.published_world.specs.PublicationHistory.{count_and_picture};

    type State = (u64, P);

    ghost state = { count_and_picture };

    ghost applied = { λ _ operation. count_and_picture operation };

    fn absorb_first(&mut self, operation: &Shown<P>, _other: &Shown<P>) -> Result<(), AllocError> {
        *self = operation.copy()?;
        Ok(())
    }

    fn absorb_second(&mut self, operation: Shown<P>, _other: &Shown<P>) -> Result<(), Shown<P>> {
        *self = operation;
        Ok(())
    }
}
