// The statuses of document 01 (ZCL 2.6.3), by their codes.
ghost use Rattle.std.specs.Prelude.{◌≡◌};
ghost use Rattle.frame.specs.Status.{status_code};

#[derive(Clone, Copy, PartialEq, Eq)]
pub enum Status {
    Success,
    UnsupCommand,
    UnsupportedAttribute,
    InvalidValue,
    ReadOnly,
    InsufficientSpace,
    NotFound,
    UnreportableAttribute,
    InvalidDataType,
    UnsupportedCluster,
}

impl From<Status> for u8 {
    ghost from_gives = { λ status code. code ≡ status_code status };

    fn from(status: Status) -> u8 {
        match status {
            Status::Success => 0x00,
            Status::UnsupCommand => 0x81,
            Status::UnsupportedAttribute => 0x86,
            Status::InvalidValue => 0x87,
            Status::ReadOnly => 0x88,
            Status::InsufficientSpace => 0x89,
            Status::NotFound => 0x8b,
            Status::UnreportableAttribute => 0x8c,
            Status::InvalidDataType => 0x8d,
            Status::UnsupportedCluster => 0xc3,
        }
    }
}
