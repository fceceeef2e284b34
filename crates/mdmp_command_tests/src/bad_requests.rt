//! Words that ask for nothing.

/// Words that are no numbers below 2^64.
pub const BAD: &str = "list|a|--memory|x => bad
list|a|--untrusted|--memory|x => bad
list|a|--memory| => bad
list|a|--untrusted|--memory| => bad
list|a|--memory|18446744073709551616 => bad
list|a|--untrusted|--memory|18446744073709551616 => bad
list|a|--memory|+1 => bad
list|a|--untrusted|--memory|+1 => bad
list|a|--memory| 1 => bad
list|a|--untrusted|--memory| 1 => bad
list|a|--memory|0x10 => bad
list|a|--untrusted|--memory|0x10 => bad
list|a|--memory|1_0 => bad
list|a|--untrusted|--memory|1_0 => bad
list|a|--aside|x => bad
list|a|--untrusted|--aside|x => bad
list|a|--aside| => bad
list|a|--untrusted|--aside| => bad
list|a|--aside|18446744073709551616 => bad
list|a|--untrusted|--aside|18446744073709551616 => bad
list|a|--aside|0x10 => bad
list|a|--untrusted|--aside|0x10 => bad
list|a|--budget|x => bad
list|a|--untrusted|--budget|x => bad
list|a|--budget| => bad
list|a|--untrusted|--budget| => bad
list|a|--untrusted|--budget|18446744073709551616 => bad";

/// Words that `clap` refuses.
pub const REFUSED: &str = "check|a|--aside|5 => refused
hex|a|0|1|--aside|5 => refused
copy|a|b|3|--aside|5 => refused
--untrusted|list|a => refused
--memory|5|list|a => refused
list|a|--untrusted=5 => refused
list|a|--memory|-5 => refused
list|a|--trusted => refused
 => refused
print|a => refused
List|a => refused
lis|a => refused
list => refused
list|a|b => refused
list|a|--pdb|--pdb => refused
list|a|--pdb=x => refused
list|a|--window => refused
list|a|--window|200|--window|200 => refused
list|-x => refused
list|a|--memory => refused
list|a|--memory|5|--memory|5 => refused
list|a|--aside|5|--aside|5 => refused
copy|a|b|3|--budget|5|--budget|5 => refused
list|a|--untrusted|--untrusted => refused
list|a|--json|--json => refused
list|a|--json=x => refused
list|a|--parts => refused
check|a|--pdb => refused
check|--|a|--name|5 => refused
hex|a => refused
hex|a|0 => refused
hex|a|0|1|2 => refused
hex|a|0|1|--json => refused
copy|a|b|3|--json => refused
copy|a => refused
--|list|a => refused";

/// Words that ask for help or the version.
pub const HELP: &str = "--help => help
-h => help
help => help
check|--help => help
list|-h => help
help|list => help
hex|a|0|--help => help
copy|--help => help
list|--help => help
hex|--help => help
--version => help
-V => help";
