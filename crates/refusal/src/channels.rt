// The channels of an area blit, each over all its rows.
ghost use Rattle.refusal.specs.Inner.Channels.{IsChannel};
ghost use Rattle.refusal.specs.Inner.Ranges.{ChannelRange};
ghost use Rattle.refusal.specs.Inner.AreaRange.{AreaRange};

use crate::types::{AreaPlan, Channel};
use word::types::Pointer;

impl AreaPlan {
    fn channel(self, used: bool, modulo: u32, pointer: Pointer) -> Channel
        requires { ChannelRange self.width self.height pointer }
        ensures { IsChannel self used modulo pointer result }
    {
        Channel {
            used,
            direction: self.setup.direction,
            width: self.width as u32,
            modulo,
            rows: self.height as u32,
            pointer,
        }
    }

    // Four methods and no `Channels` of four: each is made where it is tested, and a test that ends early makes no more.
    pub fn a(self) -> Channel
        requires { AreaRange self }
        ensures { IsChannel self self.setup.uses.a self.setup.modulos.a self.pointers.a result }
    {
        self.channel(self.setup.uses.a, self.setup.modulos.a, self.pointers.a)
    }

    pub fn b(self) -> Channel
        requires { AreaRange self }
        ensures { IsChannel self self.setup.uses.b self.setup.modulos.b self.pointers.b result }
    {
        self.channel(self.setup.uses.b, self.setup.modulos.b, self.pointers.b)
    }

    pub fn c(self) -> Channel
        requires { AreaRange self }
        ensures { IsChannel self self.setup.uses.c self.setup.modulos.c self.pointers.c result }
    {
        self.channel(self.setup.uses.c, self.setup.modulos.c, self.pointers.c)
    }

    pub fn d(self) -> Channel
        requires { AreaRange self }
        ensures { IsChannel self self.setup.uses.d self.setup.modulos.d self.pointers.d result }
    {
        self.channel(self.setup.uses.d, self.setup.modulos.d, self.pointers.d)
    }
}
