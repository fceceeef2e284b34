//! Constants of types that other crates have.

/// Limits of this window and name, and, if they are named, of these bytes read and bytes of memory. It is a macro, since
/// no constant calls a function. Where it is used, `Limits` is that of mdmp_lister.
#[macro_export]
macro_rules! limits {
    ($window:expr, $name:expr) => {
        $crate::limits!($window, $name, None, None)
    };
    ($window:expr, $name:expr, $budget:expr, $memory:expr) => {
        Limits {
            window: $window,
            name: $name,
            budget: $budget,
            memory: $memory,
            aside: None,
        }
    };
}
