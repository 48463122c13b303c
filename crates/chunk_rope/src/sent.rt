//! Ropes go to other threads. That they may is proved only where it is used, so it is used here.

use crate::rope::Rope;

fn goes<X: Send>(x: X) -> X {
    x
}

fn is_shared<X: Sync>(x: &X) -> &X {
    x
}

// A rope goes to another thread as its items do.
fn rope_goes<T: Send + Drop>(rope: Rope<T>) -> Rope<T> {
    goes(rope)
}

// Threads share a rope as they do its items.
fn rope_is_shared<T: Sync + Drop>(rope: &Rope<T>) -> &Rope<T> {
    is_shared(rope)
}
