// What may go to another thread, and what threads may share.
use crate::bank::Bank;
use crate::handle::Handle;
use crate::seat::Seat;

fn is_sent<T: Send>(_value: &T) {}

fn is_shared<T: Sync>(_value: &T) {}

/// A bank, its seats and its handles may cross threads, and be shared by threads.
pub fn cross_threads(bank: &Bank, seat: &Seat, handle: &Handle) {
    is_sent(bank);
    is_shared(bank);
    is_sent(seat);
    is_sent(handle);
    is_shared(handle);
}
