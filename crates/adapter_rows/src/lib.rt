//! A test of each adapter at the program's edge: streams of std as a source and a sink, a file of the system as a
//! disk, and sockets of this host as links. Of files and sockets contracts say only when they fail.
#![tactic(auto)]

#[cfg(test)]
mod files;
#[cfg(test)]
mod sockets;
#[cfg(test)]
mod streams;
