use crate::named::Named;

/// The type of a value, one of those of XML Schema.
///
/// IDTA-01001-3-0, enumeration DataTypeDefXsd.
#[derive(Clone, Copy, PartialEq, Eq)]
pub enum ValueType {
    AnyUri,
    Base64Binary,
    Boolean,
    Byte,
    Date,
    DateTime,
    Decimal,
    Double,
    Duration,
    Float,
    GDay,
    GMonth,
    GMonthDay,
    GYear,
    GYearMonth,
    HexBinary,
    Int,
    Integer,
    Long,
    NegativeInteger,
    NonNegativeInteger,
    NonPositiveInteger,
    PositiveInteger,
    Short,
    String,
    Time,
    UnsignedByte,
    UnsignedInt,
    UnsignedLong,
    UnsignedShort,
}

impl Named for ValueType {
    ghost use Rattle.aas_model_names.specs.ValueTypeNames.{name_of, all, found};

    ghost name_of = { name_of };

    ghost all = { all };

    ghost found = { found };

    fn name(self) -> &'static str {
        match self {
            ValueType::AnyUri => "xs:anyURI",
            ValueType::Base64Binary => "xs:base64Binary",
            ValueType::Boolean => "xs:boolean",
            ValueType::Byte => "xs:byte",
            ValueType::Date => "xs:date",
            ValueType::DateTime => "xs:dateTime",
            ValueType::Decimal => "xs:decimal",
            ValueType::Double => "xs:double",
            ValueType::Duration => "xs:duration",
            ValueType::Float => "xs:float",
            ValueType::GDay => "xs:gDay",
            ValueType::GMonth => "xs:gMonth",
            ValueType::GMonthDay => "xs:gMonthDay",
            ValueType::GYear => "xs:gYear",
            ValueType::GYearMonth => "xs:gYearMonth",
            ValueType::HexBinary => "xs:hexBinary",
            ValueType::Int => "xs:int",
            ValueType::Integer => "xs:integer",
            ValueType::Long => "xs:long",
            ValueType::NegativeInteger => "xs:negativeInteger",
            ValueType::NonNegativeInteger => "xs:nonNegativeInteger",
            ValueType::NonPositiveInteger => "xs:nonPositiveInteger",
            ValueType::PositiveInteger => "xs:positiveInteger",
            ValueType::Short => "xs:short",
            ValueType::String => "xs:string",
            ValueType::Time => "xs:time",
            ValueType::UnsignedByte => "xs:unsignedByte",
            ValueType::UnsignedInt => "xs:unsignedInt",
            ValueType::UnsignedLong => "xs:unsignedLong",
            ValueType::UnsignedShort => "xs:unsignedShort",
        }
    }

    fn values() -> &'static [ValueType] {
        &[
            ValueType::AnyUri,
            ValueType::Base64Binary,
            ValueType::Boolean,
            ValueType::Byte,
            ValueType::Date,
            ValueType::DateTime,
            ValueType::Decimal,
            ValueType::Double,
            ValueType::Duration,
            ValueType::Float,
            ValueType::GDay,
            ValueType::GMonth,
            ValueType::GMonthDay,
            ValueType::GYear,
            ValueType::GYearMonth,
            ValueType::HexBinary,
            ValueType::Int,
            ValueType::Integer,
            ValueType::Long,
            ValueType::NegativeInteger,
            ValueType::NonNegativeInteger,
            ValueType::NonPositiveInteger,
            ValueType::PositiveInteger,
            ValueType::Short,
            ValueType::String,
            ValueType::Time,
            ValueType::UnsignedByte,
            ValueType::UnsignedInt,
            ValueType::UnsignedLong,
            ValueType::UnsignedShort,
        ]
    }
}
