//! The commands that a line may look like.
ghost use Rattle.std.specs.Prelude.{◌≡◌};
ghost use Rattle.look_alikes.specs.Commands.{command_text};

/// A command that is covered, or that takes back what a covered one has written.
#[derive(Clone, Copy, Debug, PartialEq, Eq)]
pub enum Command {
    Hostname,
    Interface,
    StaticRoute,
    InnerRule,
    OuterRule,
    NumberedList,
    NamedList,
    Banner,
    NoHostname,
    NoInterface,
    DefaultInterface,
    Address,
    NoAddress,
    Shutdown,
    NoShutdown,
    AccessGroup,
    Inside,
    Outside,
    NoAccessGroup,
    NoTranslation,
    DefaultAddress,
    DefaultAccessGroup,
}

impl Command {
    /// Its words.
    pub fn text(self) -> &'static str
        ensures { result.now ≡ command_text self }
    {
        match self {
            Command::Hostname => "hostname",
            Command::Interface => "interface",
            Command::StaticRoute => "ip route",
            Command::InnerRule => "ip nat inside source static",
            Command::OuterRule => "ip nat outside source static",
            Command::NumberedList => "access-list",
            Command::NamedList => "ip access-list",
            Command::Banner => "banner",
            Command::NoHostname => "no hostname",
            Command::NoInterface => "no interface",
            Command::DefaultInterface => "default interface",
            Command::Address => "ip address",
            Command::NoAddress => "no ip address",
            Command::Shutdown => "shutdown",
            Command::NoShutdown => "no shutdown",
            Command::AccessGroup => "ip access-group",
            Command::Inside => "ip nat inside",
            Command::Outside => "ip nat outside",
            Command::NoAccessGroup => "no ip access-group",
            Command::NoTranslation => "no ip nat",
            Command::DefaultAddress => "default ip address",
            Command::DefaultAccessGroup => "default ip access-group",
        }
    }
}
