//! Who keeps the record of a coordinator in files.
#![tactic(auto)]

mod device;
mod device_call;
mod disk;
mod file_keeper;
mod framing;
mod gathered;
mod host_device;
pub mod laws;
mod record_files;

pub use device::Device;
pub use device_call::{DeviceCall, History};
pub use disk::Disk;
pub use file_keeper::FileKeeper;
pub use framing::{LogFault, texts_in};
pub use gathered::Gathered;
pub use host_device::HostDevice;
pub use record_files::{RecordFiles, put_record, take_up};
