// One endpoint's record, the check of a wanted endpoint and its allocation, as the source's alloc_endpoint.rs has them: types (here),
// definitions (specs/), document 01's rows as laws (proofs/). No function but conversions and what is
// derived: endpoint_ops and alloc_endpoint have them.

#![tactic(auto)]

ghost use Rattle.std.specs.Prelude.{◌≡◌};
ghost use Rattle.endpoints.specs.Endpoints.{type_number};
ghost use Rattle.endpoints.specs.Numbers.{error_number, usb_error};

use board::Direction;

#[derive(Clone, Copy, Default, PartialEq, Eq)]
pub enum EndpointType {
    Control,
    Isochronous,
    #[default]
    Bulk,
    Interrupt,
}

// Document 01's number of a type.
impl From<EndpointType> for u8 {
    ghost from_gives = { λ t n. n ≡ type_number t };

    fn from(t: EndpointType) -> u8 {
        match t {
            EndpointType::Control => 0,
            EndpointType::Isochronous => 1,
            EndpointType::Bulk => 2,
            EndpointType::Interrupt => 3,
        }
    }
}

#[derive(Clone, Copy, Default)]
pub struct EndpointConfig {
    pub ep_type: EndpointType,
    pub tx_max_packet_size: u16,
    pub rx_max_packet_size: u16,
}

// The default is an endpoint before any call.
#[derive(Clone, Copy, Default)]
pub struct EndpointData {
    pub ep_conf: EndpointConfig,
    pub used_tx: bool,
    pub used_rx: bool,
}

// What a call asks of an endpoint: its type, its direction, its packets' greatest size.
#[derive(Clone, Copy)]
pub struct Ask {
    pub kind: EndpointType,
    pub way: Direction,
    pub size: u16,
}

#[derive(Clone, Copy, Debug, PartialEq, Eq)]
pub enum EndpointAllocError {
    EndpointOverflow,
    InvalidEndpoint,
    EpDirNotSupported,
    EpUsed,
    MaxPacketSizeBiggerThanEpFifoSize,
}

// Document 01's number of an error.
impl From<EndpointAllocError> for u8 {
    ghost from_gives = { λ e n. n ≡ error_number e };

    fn from(e: EndpointAllocError) -> u8 {
        match e {
            EndpointAllocError::EndpointOverflow => 1,
            EndpointAllocError::InvalidEndpoint => 2,
            EndpointAllocError::EpDirNotSupported => 3,
            EndpointAllocError::EpUsed => 4,
            EndpointAllocError::MaxPacketSizeBiggerThanEpFifoSize => 5,
        }
    }
}

// The cases of the `usb-device` trait's error that allocation gives.
#[derive(Clone, Copy, Debug, PartialEq, Eq)]
pub enum UsbError {
    EndpointOverflow,
    EndpointMemoryOverflow,
    InvalidEndpoint,
}

// What the source's `alloc_ep` makes of an error for the trait.
impl From<EndpointAllocError> for UsbError {
    ghost from_gives = { λ e u. u ≡ usb_error e };

    fn from(e: EndpointAllocError) -> UsbError {
        match e {
            EndpointAllocError::EndpointOverflow => UsbError::EndpointOverflow,
            EndpointAllocError::InvalidEndpoint => UsbError::InvalidEndpoint,
            EndpointAllocError::EpDirNotSupported => UsbError::InvalidEndpoint,
            EndpointAllocError::EpUsed => UsbError::InvalidEndpoint,
            EndpointAllocError::MaxPacketSizeBiggerThanEpFifoSize =>
                UsbError::EndpointMemoryOverflow,
        }
    }
}
