// The steps on tapes, as a world takes them: the world must run, and in a step that calls disks a stop may be met.
ghost use Rattle.std.specs.Prelude.{◌≡◌, [], IfErr, OnOk};

use crate::fault::{Fault, Halt};
use crate::output::Output;
use crate::world::{Stage, World};
use funnel::PeerName;

impl World {
    ghost use Rattle.world_core.specs.Past.{Life};
    ghost use Rattle.world_core.specs.Stands.{WorldStands};
    ghost use Rattle.world_core.specs.Turn.{Took, WasNotTaken};
    ghost use Rattle.world_core.specs.declared.step.Step.TheVariants.{Begin, Flush, Import, Line, Part, Rotate, Seal};
    ghost use Rattle.world_core.specs.declared.step.Step.TheVariants.{Shed};

    pub(crate) fn line(&mut self, text: &Vec<u8>, out: &mut Vec<Output>) -> Result<(), Fault>
        requires { out.old.items ≡ [] }
        ensures ok { (life : Life) → WorldStands self.old life
            → OnOk result (Took (Line text.now) life out.new.items self.new) }
        ensures err { (life : Life) → WorldStands self.old life
            → IfErr result (λ fault. WasNotTaken (Line text.now) life fault self.new) }
    {
        let Stage::Running(stations, _) = &mut self.stage else {
            return Err(Fault::Stopped);
        };
        *out = stations.line(text)?;
        Ok(())
    }

    pub(crate) fn begin(&mut self, out: &mut Vec<Output>) -> Result<(), Fault>
        requires { out.old.items ≡ [] }
        ensures ok { (life : Life) → WorldStands self.old life
            → OnOk result (Took Begin life out.new.items self.new) }
        ensures err { (life : Life) → WorldStands self.old life
            → IfErr result (λ fault. WasNotTaken Begin life fault self.new) }
    {
        let Stage::Running(stations, _) = &mut self.stage else {
            return Err(Fault::Stopped);
        };
        stations.begin();
        Ok(())
    }

    pub(crate) fn part(&mut self, name: &PeerName, out: &mut Vec<Output>) -> Result<(), Fault>
        requires { out.old.items ≡ [] }
        ensures ok { (life : Life) → WorldStands self.old life
            → OnOk result (Took (Part name.now) life out.new.items self.new) }
        ensures err { (life : Life) → WorldStands self.old life
            → IfErr result (λ fault. WasNotTaken (Part name.now) life fault self.new) }
    {
        let Stage::Running(stations, _) = &mut self.stage else {
            return Err(Fault::Stopped);
        };
        let rank = stations.rank_of(name);
        match stations.part(name) {
            Ok(outputs) => {
                *out = outputs;
                Ok(())
            }
            Err(fault) => self.settle(Halt { rank, fault }, out),
        }
    }

    pub(crate) fn seal(&mut self, out: &mut Vec<Output>) -> Result<(), Fault>
        requires { out.old.items ≡ [] }
        ensures ok { (life : Life) → WorldStands self.old life
            → OnOk result (Took Seal life out.new.items self.new) }
        ensures err { (life : Life) → WorldStands self.old life
            → IfErr result (λ fault. WasNotTaken Seal life fault self.new) }
    {
        let Stage::Running(stations, _) = &mut self.stage else {
            return Err(Fault::Stopped);
        };
        match stations.seal() {
            Ok(outputs) => {
                *out = outputs;
                Ok(())
            }
            Err(fault) => self.settle(Halt { rank: None, fault }, out),
        }
    }

    pub(crate) fn flush(&mut self, out: &mut Vec<Output>) -> Result<(), Fault>
        requires { out.old.items ≡ [] }
        ensures ok { (life : Life) → WorldStands self.old life
            → OnOk result (Took Flush life out.new.items self.new) }
        ensures err { (life : Life) → WorldStands self.old life
            → IfErr result (λ fault. WasNotTaken Flush life fault self.new) }
    {
        let Stage::Running(stations, _) = &mut self.stage else {
            return Err(Fault::Stopped);
        };
        match stations.flush() {
            Ok(outputs) => {
                *out = outputs;
                Ok(())
            }
            Err(halt) => self.settle(halt, out),
        }
    }

    pub(crate) fn shed(&mut self, name: &PeerName, out: &mut Vec<Output>) -> Result<(), Fault>
        requires { out.old.items ≡ [] }
        ensures ok { (life : Life) → WorldStands self.old life
            → OnOk result (Took (Shed name.now) life out.new.items self.new) }
        ensures err { (life : Life) → WorldStands self.old life
            → IfErr result (λ fault. WasNotTaken (Shed name.now) life fault self.new) }
    {
        let Stage::Running(stations, _) = &mut self.stage else {
            return Err(Fault::Stopped);
        };
        *out = stations.shed(name)?;
        Ok(())
    }

    pub(crate) fn rotate(&mut self, name: &PeerName, out: &mut Vec<Output>) -> Result<(), Fault>
        requires { out.old.items ≡ [] }
        ensures ok { (life : Life) → WorldStands self.old life
            → OnOk result (Took (Rotate name.now) life out.new.items self.new) }
        ensures err { (life : Life) → WorldStands self.old life
            → IfErr result (λ fault. WasNotTaken (Rotate name.now) life fault self.new) }
    {
        let Stage::Running(stations, _) = &mut self.stage else {
            return Err(Fault::Stopped);
        };
        let rank = stations.rank_of(name);
        match stations.rotate(name) {
            Ok(outputs) => {
                *out = outputs;
                Ok(())
            }
            Err(fault) => self.settle(Halt { rank, fault }, out),
        }
    }

    pub(crate) fn import(
        &mut self,
        name: &PeerName,
        text: &Vec<u8>,
        out: &mut Vec<Output>,
    ) -> Result<(), Fault>
        requires { out.old.items ≡ [] }
        ensures ok { (life : Life) → WorldStands self.old life
            → OnOk result (Took (Import name.now text.now) life out.new.items self.new) }
        ensures err { (life : Life) → WorldStands self.old life
            → IfErr result (λ fault. WasNotTaken (Import name.now text.now) life fault self.new) }
    {
        let Stage::Running(stations, _) = &mut self.stage else {
            return Err(Fault::Stopped);
        };
        let rank = stations.rank_of(name);
        match stations.import(name, text) {
            Ok(outputs) => {
                *out = outputs;
                Ok(())
            }
            Err(fault) => self.settle(Halt { rank, fault }, out),
        }
    }
}
