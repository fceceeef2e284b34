//! Values that are dropped, each of which is told apart.

/// A value that can be dropped.
///
/// Code over this trait is proved whatever `may_go` is. So it shows that a value was dropped as it is only by
/// `let_go`, and a contract can say in which state a call left what it dropped. Every value that may be dropped has it.
pub trait LetGo {
    /// Whether a value may be dropped as it is.
    ghost may_go: { Self → Type 0 };

    /// Drops the value.
    fn let_go(self)
        ensures { may_go self };
}

impl<T: Drop> LetGo for T {
    ghost may_go = { λ _. Unit {0} };

    fn let_go(self) {
        let _gone = self;
    }
}
