//! The worked rows between ranks, by calls: queues of cells, ports and copy rings.

mod ends;
mod ports;
mod queues;
mod rings;
