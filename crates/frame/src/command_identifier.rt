// The global commands of document 01 (ZCL 2.5), by their codes.
ghost use Rattle.std.specs.Prelude.{◌≡◌};
ghost use Rattle.frame.specs.CommandIdentifier.{command_code, command_of};

#[derive(Clone, Copy, PartialEq, Eq)]
pub enum CommandIdentifier {
    ReadAttributes,
    ReadAttributesResponse,
    WriteAttributes,
    WriteAttributesUndivided,
    WriteAttributesResponse,
    WriteAttributesNoResponse,
    ConfigureReporting,
    ConfigureReportingResponse,
    ReadReportingConfiguration,
    ReadReportingConfigurationResponse,
    ReportAttributes,
    DefaultResponse,
    DiscoverAttributes,
    DiscoverAttributesResponse,
    Other(u8),
}

impl From<u8> for CommandIdentifier {
    ghost from_gives = { λ b command. command ≡ command_of b };

    fn from(b: u8) -> CommandIdentifier {
        match b {
            0x00 => CommandIdentifier::ReadAttributes,
            0x01 => CommandIdentifier::ReadAttributesResponse,
            0x02 => CommandIdentifier::WriteAttributes,
            0x03 => CommandIdentifier::WriteAttributesUndivided,
            0x04 => CommandIdentifier::WriteAttributesResponse,
            0x05 => CommandIdentifier::WriteAttributesNoResponse,
            0x06 => CommandIdentifier::ConfigureReporting,
            0x07 => CommandIdentifier::ConfigureReportingResponse,
            0x08 => CommandIdentifier::ReadReportingConfiguration,
            0x09 => CommandIdentifier::ReadReportingConfigurationResponse,
            0x0a => CommandIdentifier::ReportAttributes,
            0x0b => CommandIdentifier::DefaultResponse,
            0x0c => CommandIdentifier::DiscoverAttributes,
            0x0d => CommandIdentifier::DiscoverAttributesResponse,
            _ => CommandIdentifier::Other(b),
        }
    }
}

impl From<CommandIdentifier> for u8 {
    ghost from_gives = { λ command b. b ≡ command_code command };

    fn from(command: CommandIdentifier) -> u8 {
        match command {
            CommandIdentifier::ReadAttributes => 0x00,
            CommandIdentifier::ReadAttributesResponse => 0x01,
            CommandIdentifier::WriteAttributes => 0x02,
            CommandIdentifier::WriteAttributesUndivided => 0x03,
            CommandIdentifier::WriteAttributesResponse => 0x04,
            CommandIdentifier::WriteAttributesNoResponse => 0x05,
            CommandIdentifier::ConfigureReporting => 0x06,
            CommandIdentifier::ConfigureReportingResponse => 0x07,
            CommandIdentifier::ReadReportingConfiguration => 0x08,
            CommandIdentifier::ReadReportingConfigurationResponse => 0x09,
            CommandIdentifier::ReportAttributes => 0x0a,
            CommandIdentifier::DefaultResponse => 0x0b,
            CommandIdentifier::DiscoverAttributes => 0x0c,
            CommandIdentifier::DiscoverAttributesResponse => 0x0d,
            CommandIdentifier::Other(b) => b,
        }
    }
}
