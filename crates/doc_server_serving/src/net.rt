//! What a server serves over, and what it serves: the modules of the crate below, for the crates above.

pub use doc_server_network::{
    beside, came, follow_fault, guest, handed, lead, memory_network, mio_network, net_fault,
    network, reload_fault, reloaded, retrying, saved_hub, script, watch, watched,
};
