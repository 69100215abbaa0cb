// Tables compared, entry by entry.
use crate::buffers::Buffers;

pub(crate) fn same_buffers(s: &Buffers, t: &Buffers) -> bool {
    s.names == t.names && s.nums == t.nums && s.ticks == t.ticks
}
