// Lists of bounded length that allocate nothing, so that no call above them can fail for want of memory.
#![tactic(auto)]

pub mod table;
