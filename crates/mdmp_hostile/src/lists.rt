//! A file listed through two windows.

use crate::bounds::{check_bounds, counts_of};
use crate::census::{Census, Counted, NO_LIMIT, OUT_OF_MEMORY};
use crate::windows::{NotOpened, TwoWindows, open};
use mdmp_lister::{
    Counts, Item, ListFault, Lister, Name, OpenFault, RunFault, Sink, Stopped, StreamItem,
    StreamKind,
};
use mdmp_source::MemoryStore;
use std::alloc::Global;

/// How the list of a file ends.
#[derive(Clone, Copy, PartialEq, Eq)]
pub enum ListEnd {
    /// It can't be listed at all.
    Refused(OpenFault),
    /// At a fault.
    At(ListFault),
    /// Behind its last item.
    Whole,
}

/// What is told of the list of a file.
#[derive(Clone, Copy)]
pub struct FileListed {
    /// How it ends.
    pub end: ListEnd,
    /// How many items it has.
    pub items: u64,
    /// How many bytes were fetched for it, through the first window.
    pub fetched: u128,
}

/// Takes the items of one lister, and compares each with the next one of another.
#[derive(Drop)]
pub struct Companion<'a> {
    other: Lister<MemoryStore<'a>, Global>,
    census: Census,
    /// How many items it took.
    pub items: u64,
}

impl<'a> Companion<'a> {
    /// One that took nothing yet, and goes on with this census.
    pub fn new(other: Lister<MemoryStore<'a>, Global>, census: Census) -> Self {
        Companion {
            other,
            census,
            items: 0,
        }
    }
}

impl<'a> Sink for Companion<'a> {
    ghost step = { λ _ _ _ _. Unit {0} };

    fn take(&mut self, item: &Item<'_>) -> Result<(), Stopped> {
        count_item(&mut self.census, item);
        self.items = self.items.saturating_add(1);
        if gives_next(&mut self.other, item) {
            Ok(())
        } else {
            Err(Stopped)
        }
    }
}

/// Whether this is the item that a lister gives next.
fn gives_next(lister: &mut Lister<MemoryStore<'_>, Global>, item: &Item<'_>) -> bool {
    match lister.next() {
        Ok(Some(given)) => given == *item,
        Ok(None) | Err(_) => false,
    }
}

/// Whether a lister ends next, at this fault or at none.
pub fn ends_next(lister: &mut Lister<MemoryStore<'_>, Global>, fault: Option<ListFault>) -> bool {
    match lister.next() {
        Ok(Some(_)) => false,
        Ok(None) => fault.is_none(),
        Err(given) => fault == Some(given),
    }
}

/// Lists a file in one run through the first window, beside one item after another through the second.
pub fn list_file(
    alloc: Global,
    file: &[u8],
    windows: TwoWindows,
    census: &mut Census,
) -> FileListed {
    let one = open(alloc, file, windows.one);
    let other = open(alloc, file, windows.other);
    match (one, other) {
        (Ok(one), Ok(other)) => list_beside(one, other, windows, census),
        (Err(one), Err(other)) => {
            census.agree(one.fault == other.fault, "the windows refuse otherwise");
            refused(one, census)
        },
        (Ok(_), Err(refusal)) | (Err(refusal), Ok(_)) => {
            census.keep_trouble("one window refuses");
            refused(refusal, census)
        },
    }
}

/// The list of a file that is refused, by a fault that one in memory may have.
fn refused(refusal: NotOpened, census: &mut Census) -> FileListed {
    match refusal.fault {
        OpenFault::Memory => census.keep_trouble(OUT_OF_MEMORY),
        OpenFault::Budget { .. } | OpenFault::MemoryLimit { .. } => census.keep_trouble(NO_LIMIT),
        OpenFault::Source(_) => census.keep_trouble("opening: the store is at fault"),
        _ => {},
    }
    not_listed(refusal)
}

/// The list of a file that is refused: it has no items.
pub fn not_listed(refusal: NotOpened) -> FileListed {
    FileListed {
        end: ListEnd::Refused(refusal.fault),
        items: 0,
        fetched: refusal.fetched,
    }
}

fn list_beside<'a>(
    mut one: Lister<MemoryStore<'a>, Global>,
    other: Lister<MemoryStore<'a>, Global>,
    windows: TwoWindows,
    census: &mut Census,
) -> FileListed {
    let mut companion = Companion::new(other, *census);
    let fault = run(&mut one, &mut companion);
    let Companion {
        mut other,
        census: counted,
        items,
    } = companion;
    *census = counted;
    let end = end_of(fault, &mut other, census);
    let counts = counts_of(&one);
    census.agree(
        count_the_same(&counts, &counts_of(&other)),
        "the windows count otherwise",
    );
    check_bounds(one, windows.one, census);
    check_bounds(other, windows.other, census);
    FileListed {
        end,
        items,
        fetched: counts.fetched,
    }
}

/// Why a run ended before the end of the list.
pub fn run<'a>(
    lister: &mut Lister<MemoryStore<'a>, Global>,
    companion: &mut Companion<'a>,
) -> Option<RunFault> {
    lister.list_into(companion).err()
}

/// How a run ended. The other lister has to end so too.
fn end_of(
    fault: Option<RunFault>,
    other: &mut Lister<MemoryStore<'_>, Global>,
    census: &mut Census,
) -> ListEnd {
    match fault {
        None => {
            census.agree(ends_next(other, None), "one window ends the list");
            ListEnd::Whole
        },
        Some(RunFault::At(fault)) => {
            census.agree(ends_next(other, Some(fault)), "one window has a fault");
            ListEnd::At(fault)
        },
        Some(RunFault::Stopped) => {
            census.keep_trouble("the windows give other items");
            ListEnd::Whole
        },
    }
}

/// Whether the listed bytes, entries, ranges and names are counted the same.
fn count_the_same(one: &Counts, other: &Counts) -> bool {
    one.s == other.s && one.r == other.r && one.n == other.n && one.m == other.m
}

/// Counts an item by its kind.
fn count_item(census: &mut Census, item: &Item<'_>) {
    match item {
        Item::Stream(stream) => census.count(counted_stream(stream)),
        Item::Thread(_) => census.count(Counted::Threads),
        Item::Module(module) => {
            census.count(Counted::Modules);
            count_name(census, &module.name);
        },
        Item::Unloaded(module) => {
            census.count(Counted::Unloaded);
            count_name(census, &module.name);
        },
        Item::Exception(_) => census.count(Counted::Exceptions),
        Item::System(system) => {
            census.count(Counted::Systems);
            count_name(census, &system.name);
        },
        Item::MemoryInfo(_) => census.count(Counted::Regions),
        Item::ThreadName(thread) => {
            census.count(Counted::ThreadNames);
            count_name(census, &thread.name);
        },
        Item::Range(_) => census.count(Counted::Ranges),
    }
}

fn count_name(census: &mut Census, name: &Name<'_>) {
    match name {
        Name::None => {},
        Name::Units(_) => census.count(Counted::Names),
        Name::Long(_) => census.count(Counted::LongNames),
    }
}

/// What an entry is counted as.
fn counted_stream(stream: &StreamItem) -> Counted {
    let Some(kind) = StreamKind::of_type(stream.stream_type) else {
        return match stream.stream_type {
            0 => Counted::Unused,
            1..0x10000 => Counted::Opaque,
            _ => Counted::Users,
        };
    };
    match kind {
        StreamKind::Threads => Counted::ThreadLists,
        StreamKind::Modules => Counted::ModuleLists,
        StreamKind::Memory => Counted::MemoryLists,
        StreamKind::Exception => Counted::ExceptionStreams,
        StreamKind::System => Counted::SystemStreams,
        StreamKind::Memory64 => Counted::Memory64Lists,
        StreamKind::Unloaded => Counted::UnloadedLists,
        StreamKind::MemoryInfo => Counted::MemoryInfoLists,
        StreamKind::ThreadNames => Counted::ThreadNameLists,
    }
}
