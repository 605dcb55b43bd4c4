//! What `relay` reads and prints. The lines were worked by hand.

/// A job of two senders: both encryption types, both kinds of message. The first says `a` and `b`,
/// and the second nothing.
pub const TWO_SENDERS: &str = "
[[sender]]
etype = 17
key = '000102030405060708090a0b0c0d0e0f'
mode = 'safe'
first = 7
from = '2:0a000001'
to = '2:0a0000ff'
skew = 300
seed = '0000000000000000000000000000000000000000000000000000000000000000'
at = [1700000000000005]
now = [1700000000000005]
texts = ['61', '62']
[[sender]]
etype = 18
key = '1111111111111111111111111111111111111111111111111111111111111111'
mode = 'priv'
first = 7
from = '2:0a000002'
to = '2:0a0000ff'
skew = 300
seed = '0000000000000000000000000000000000000000000000000000000000000000'
at = [1700000000000005]
now = [1700000000000005]
texts = []
";

/// What `relay` prints of it.
pub const TWO_LANES: &str = "lane 0 text 61
lane 1 closed
lane 0 text 62
lane 0 closed
lane 0 sent 2 of 2 DONE CLOSED
lane 1 sent 0 of 0 DONE CLOSED
";
