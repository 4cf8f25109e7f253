//! Nets for the value of an entry as a packet sees it: a word of eight bytes before the packet's own operations, what each of these makes of
//! it, and what an access answers.

pub mod answering;
pub mod changing;
pub mod entry;
pub mod following;
pub mod operating;
pub mod placing;
