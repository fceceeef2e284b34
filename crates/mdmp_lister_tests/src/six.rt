//! What a lister gives of a file with six streams.
use crate::given::{SERVICE_PACK, What, nameless, stream, system};
use crate::script::Call;
use mdmp_source::Extent;

/// The calls that give the items of `SIX`, where a name is not longer than its limit.
pub const SIX_ITEMS: [Call; 9] = [
    Call::Gives(stream!(0, 7, 56, 104)),
    Call::Gives(system!(4, 7601, SERVICE_PACK)),
    Call::Gives(stream!(1, 3, 52, 196)),
    Call::Gives(nameless!(
        1,
        0,
        What::Thread {
            id: 7,
            stack: Extent::Inside,
            context: Extent::Inside,
        }
    )),
    Call::Gives(stream!(2, 4, 4, 260)),
    Call::Gives(stream!(3, 6, 168, 264)),
    Call::Gives(nameless!(
        3,
        0,
        What::Exception {
            thread: 7,
            code: 0xc0000005,
            context: Extent::Inside,
        }
    )),
    Call::Gives(stream!(4, 5, 4, 436)),
    Call::Gives(stream!(5, 12, 4, 440)),
];

/// Those of its streams alone, by their numbers.
pub static STREAMS: [usize; 6] = [0, 2, 4, 5, 7, 8];
