// What may go to another thread. No two threads share a publisher, an observer or a note.
use crate::note::Note;
use crate::observer::Observer;
use crate::picture::Picture;
use crate::publisher::Publisher;

fn sent<T: Send>(_value: &T) {}

pub fn all_cross<P: Picture + Send + Sync>(
    publisher: &Publisher<P>,
    observer: &Observer<P>,
    note: &Note<P>,
) {
    sent(publisher);
    sent(observer);
    sent(note);
}
