//! What words ask for that name limits.

/// Windows and names of each command.
pub const LIMITED: &str =
    "check|--window|168|--name|0|a => check [a] within 168 0 Some(18446744073709551615) None None
list|a|--name|1073741824 => list [a] within 65536 1073741824 Some(18446744073709551615) None None
list|a|--window=1073741824|--pdb => list [a] pdb within 1073741824 4096 Some(18446744073709551615) None None
hex|a|--window|00000000000000000000000000000200|7|1 => hex [a] 7 1 within 200 4096 Some(18446744073709551615) None None
copy|--name|1|a|b|3|4 => copy [a] [b] 3 4 within 65536 1 Some(18446744073709551615) None None
copy|a|b|3|--window|300|4 => copy [a] [b] 3 4 within 300 4096 Some(18446744073709551615) None None
--window|300|list|a => refused
check|a|--window|1073741824|--name|1073741824 => check [a] within 1073741824 1073741824 Some(18446744073709551615) None None
check|a|--window|168|--name|0 => check [a] within 168 0 Some(18446744073709551615) None None
list|a|--window|1073741824|--name|1073741824 => list [a] within 1073741824 1073741824 Some(18446744073709551615) None None
list|a|--window|168|--name|0 => list [a] within 168 0 Some(18446744073709551615) None None
hex|a|0|1|--window|1073741824|--name|1073741824 => hex [a] 0 1 within 1073741824 1073741824 Some(18446744073709551615) None None
hex|a|0|1|--window|168|--name|0 => hex [a] 0 1 within 168 0 Some(18446744073709551615) None None
copy|a|b|3|--window|1073741824|--name|1073741824 => copy [a] [b] 3 within 1073741824 1073741824 Some(18446744073709551615) None None
copy|a|b|3|--window|168|--name|0 => copy [a] [b] 3 within 168 0 Some(18446744073709551615) None None";

/// Options of a list, at their ends and past them.
pub const OPTIONS: &str = "list|a|--window|167 => bad
list|a|--window|168 => list [a] within 168 4096 Some(18446744073709551615) None None
list|a|--window|1073741824 => list [a] within 1073741824 4096 Some(18446744073709551615) None None
list|a|--window|1073741825 => bad
list|a|--window|4294967296 => bad
list|a|--window|4294967464 => bad
list|a|--window|0x200 => bad
list|a|--name|0 => list [a] within 65536 0 Some(18446744073709551615) None None
list|a|--name|1073741825 => bad
list|a|--name|4294967296 => bad
list|a|--name|18446744073709551616 => bad
list|a|--name| => bad
list|a|--name|+5 => bad
list|a|--name| 5 => bad
list|a|--name|5  => bad
list|a|--name|1_0 => bad
list|a|--name|-5 => refused
list|a|--budget|5 => list [a] within 65536 4096 Some(5) None None
list|a|--budget|-5 => refused
list|a|--limit|5 => refused";

/// Each limit is that of its option.
pub const NAMED: &str = "list|a => list [a] usual
list|a|--budget|0 => list [a] within 65536 4096 Some(0) None None
check|--budget=43|a => check [a] within 65536 4096 Some(43) None None
hex|a|0|1|--budget|0020000 => hex [a] 0 1 within 65536 4096 Some(20000) None None
list|a|--budget|18446744073709551615 => list [a] usual
list|a|--budget|18446744073709551616 => bad
list|a|--budget|+1 => bad
list|a|--budget|0x10 => bad
copy|a|b|3|--budget|1 => copy [a] [b] 3 within 65536 4096 Some(1) None None
check|a => check [a] usual
hex|a|0|1 => hex [a] 0 1 usual
check|a|--memory|0 => check [a] within 65536 4096 Some(18446744073709551615) Some(0) None
list|--memory=43|a => list [a] within 65536 4096 Some(18446744073709551615) Some(43) None
hex|a|0|1|--memory|0020000 => hex [a] 0 1 within 65536 4096 Some(18446744073709551615) Some(20000) None
copy|a|b|3|--memory|18446744073709551615 => copy [a] [b] 3 within 65536 4096 Some(18446744073709551615) Some(18446744073709551615) None
copy|--budget=0|a|b|3 => copy [a] [b] 3 within 65536 4096 Some(0) None None
list|a|--aside|0 => list [a] within 65536 4096 Some(18446744073709551615) None Some(0)
list|a|--pdb|--aside=18446744073709551615 => list [a] pdb within 65536 4096 Some(18446744073709551615) None Some(18446744073709551615)
list|a|--aside|3|--memory|2|--budget|1 => list [a] within 65536 4096 Some(1) Some(2) Some(3)
copy|a|b|3|--memory|2|--budget|1 => copy [a] [b] 3 within 65536 4096 Some(1) Some(2) None";

/// `--untrusted`, over which an option wins.
pub const UNTRUSTED: &str = "check|a|--untrusted => check [a] strangers
list|--untrusted|a => list [a] strangers
hex|a|--untrusted|0|1 => hex [a] 0 1 strangers
copy|a|b|3|--untrusted => copy [a] [b] 3 strangers
list|a|--untrusted|--budget|5 => list [a] within 65536 4096 Some(5) Some(67108864) Some(67108864)
list|a|--budget|18446744073709551615|--untrusted => list [a] within 65536 4096 Some(18446744073709551615) Some(67108864) Some(67108864)
check|--memory|67108865|a|--untrusted => check [a] within 65536 4096 Some(67108864) Some(67108865) Some(67108864)
list|a|--untrusted|--pdb|--aside|0 => list [a] pdb within 65536 4096 Some(67108864) Some(67108864) Some(0)
list|a|--budget=1|--untrusted|--memory=2|--aside=3 => list [a] within 65536 4096 Some(1) Some(2) Some(3)
copy|--budget|1|a|b|3|--untrusted => copy [a] [b] 3 within 65536 4096 Some(1) Some(67108864) Some(67108864)
list|--|--untrusted => list [--untrusted] usual";
