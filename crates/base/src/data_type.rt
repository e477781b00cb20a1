// The frame's type byte. Every byte reads as a type, so that an unknown one is carried and not refused.
ghost use Rattle.std.specs.Prelude.{◌≡◌};
ghost use Rattle.base.specs.DataType.{from_wire, to_wire};

#[derive(Clone, Copy, Debug, PartialEq, Eq)]
pub enum DataType {
    Data,
    Ack,
    DataMcNo1,
    DataIcd,
    DataEv,
    DataMdr,
    DataCommon,
    DataMdrNo2,
    Shot,
    ShotMcNo1,
    ShotIcd,
    ShotEv,
    ShotMdr,
    ShotCommon,
    ShotMdrNo2,
    Unknown(u8),
}

// No `From`: the names say that the byte is the one on the wire.
impl DataType {
    #[tactic(auto, unfolding(crate::specs::DataType::from_wire))]
    pub fn from_wire(b: u8) -> DataType
        ensures { result ≡ from_wire b }
    {
        match b {
            0x00 => DataType::Data,
            0x01 => DataType::Ack,
            0x02 => DataType::DataMcNo1,
            0x09 => DataType::DataIcd,
            0x0A => DataType::DataEv,
            0x0C => DataType::DataMdr,
            0x0D => DataType::DataCommon,
            0x0E => DataType::DataMdrNo2,
            0x10 => DataType::Shot,
            0x12 => DataType::ShotMcNo1,
            0x19 => DataType::ShotIcd,
            0x1A => DataType::ShotEv,
            0x1C => DataType::ShotMdr,
            0x1D => DataType::ShotCommon,
            0x1E => DataType::ShotMdrNo2,
            other => DataType::Unknown(other),
        }
    }

    pub fn to_wire(self) -> u8
        ensures { result ≡ to_wire self }
    {
        match self {
            DataType::Data => 0x00,
            DataType::Ack => 0x01,
            DataType::DataMcNo1 => 0x02,
            DataType::DataIcd => 0x09,
            DataType::DataEv => 0x0A,
            DataType::DataMdr => 0x0C,
            DataType::DataCommon => 0x0D,
            DataType::DataMdrNo2 => 0x0E,
            DataType::Shot => 0x10,
            DataType::ShotMcNo1 => 0x12,
            DataType::ShotIcd => 0x19,
            DataType::ShotEv => 0x1A,
            DataType::ShotMdr => 0x1C,
            DataType::ShotCommon => 0x1D,
            DataType::ShotMdrNo2 => 0x1E,
            DataType::Unknown(b) => b,
        }
    }
}
