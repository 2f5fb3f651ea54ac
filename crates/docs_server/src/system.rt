//! The system as `listen` uses it: files by their names, and TCP.

ghost use Rattle.std.specs.Prelude.{◌≡◌, false, IfOk};
ghost use Rattle.docs_server.specs.NamedDevices.{has_failed};

use crate::growing_file::GrowingFile;
use crate::listen_fault::ListenFault;
use crate::named_device::NamedDevice;
use crate::serving::tell_address;
use crate::shared::Shared;
use crate::torn::TornFile;
use doc_page_parts::bytes::Bytes;
use doc_page_parts::heap::Heap;
use doc_server_compacting::reserve::make_reserve;
use doc_server_follow::growing::Growing;
use doc_server_follow::growing_fault::GrowingFault;
use doc_server_journal::device::Device;
use doc_server_journal::file_device::FileDevice;
use doc_server_journal::file_fault::FileFault;
use doc_server_journal::journal::Journal;
use doc_server_journal::names::Replacement;
use doc_server_journal::random::new_identity;
use doc_server_journal::torn::KeepTorn;
use doc_server_journal_records::header::{HEADER_LEN, Identity};
use doc_server_serving::hosting::host::Host;
use doc_server_serving::net::mio_network::MioNetwork;
use doc_server_streams::fault::Fault;
use doc_server_streams::write_to::WriteTo;
use std::fs::{File, remove_file};
use std::io;
use std::net::{Net, SocketAddr};
use std::rt::{Clock, Files};

/// The system that a runtime gives, and the address that is listened at there. Of its files and connections nothing is known.
#[derive(Clone, Copy, Drop)]
pub struct System<'a, P> {
    pub rt: &'a P,
    pub heap: Heap,
    /// The address as it is written, and what that means.
    pub written: &'a str,
    pub address: SocketAddr,
    /// Whether standard input is heard: its end ends the server.
    pub hears_input: bool,
    /// Where the door for monitors finds what stands.
    pub shared: &'a Shared,
}

impl<'a, P: Clock + Eprint + Files<File = File> + Net + Print> Host for System<'a, P> {
    ghost use Rattle.std.specs.Prelude.{None};

    type Device = NamedDevice<'a, P>;

    type Network = MioNetwork;

    type Fault = ListenFault;

    ghost file = { λ _ _. None };

    fn open_journal(&self, heap: Heap, name: &str) -> Result<NamedDevice<'a, P>, ListenFault> {
        match NamedDevice::open(self.rt, heap, name) {
            Ok(device) => Ok(device),
            Err(FileFault::Missing) => {
                begin_journal(self.rt, heap, name)?;
                Ok(NamedDevice::open(self.rt, heap, name)?)
            }
            Err(fault) => Err(ListenFault::from(fault)),
        }
    }

    fn keep_torn(&self, name: &str, records: usize, bytes: &[u8]) {
        let mut torn = TornFile {
            rt: self.rt,
            heap: self.heap,
            name,
        };
        torn.keep(records, bytes);
    }

    fn tell_journal(&self, name: &str, records: usize) {
        if let Ok(header) = header_of(self.rt, self.heap, name) {
            self.shared.tell_journal(header.get(), records);
        }
    }

    fn bind(&self, heap: Heap) -> Result<MioNetwork, ListenFault> {
        match MioNetwork::bind(self.rt, heap, self.address, self.hears_input) {
            Ok(net) => Ok(net),
            Err(_) => Err(ListenFault::Command(Fault::Socket)),
        }
    }

    fn tell_bound(&self) -> Result<(), ListenFault> {
        tell_address(&mut WriteTo::new(io::writer(self.rt)), self.written)?;
        Ok(())
    }
}

/// The header of the journal of this name.
fn header_of<P: Files<File = File>>(rt: &P, heap: Heap, name: &str) -> Result<Bytes, GrowingFault> {
    let mut file = GrowingFile::open(rt, name)?;
    file.read_at(heap, 0, HEADER_LEN)
}

/// Makes a journal of this name, and tells it. It gets the name once it has its header, so that no crash leaves one without, nor
/// without its reserve.
fn begin_journal<P: Eprint + Files<File = File>>(
    rt: &P,
    heap: Heap,
    name: &str,
) -> Result<(), ListenFault> {
    let place = Replacement::first_of(heap, name)?;
    let device = FileDevice::make(rt, place.new_name())?;
    let identity = new_identity(rt)?;
    match new_journal(heap, device, &identity) {
        Ok(_journal) => {
            place.take_first_name(rt)?;
            let _ = eprintln!(rt; "docs_server: new journal {name}");
            Ok(())
        }
        Err(fault) => {
            let _ = remove_file(rt, place.new_name());
            Err(fault)
        }
    }
}

/// A journal without records, of an empty file, with its reserve.
fn new_journal<D: Device + Drop>(
    heap: Heap,
    device: D,
    identity: &Identity,
) -> Result<Journal<D>, ListenFault>
    requires usable { D.failed device ≡ false }
{
    match Journal::make(heap, device, identity) {
        Ok(journal) => {
            let mut journal = journal;
            make_reserve(&mut journal)?;
            Ok(journal)
        }
        Err(refused) => Err(ListenFault::from(refused.fault)),
    }
}
