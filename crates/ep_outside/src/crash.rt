//! Disks that stop when they are asked to.

ghost use Rattle.std.specs.Prelude.{◌≡◌, true, Some, None};
ghost use Rattle.ep_outside.specs.Disk.{Moves};
ghost use Rattle.ep_outside.specs.Crash.{Restarts, image_at};

use crate::disk::Disk;
use crate::image::Image;

/// A disk that stops when it is asked to.
pub trait Crash: Disk {
    ghost use Rattle.ep_outside.specs.declared.image.Image.{Image};

    /// The image that was asked for with the last stop.
    ghost image: { Self → Image };

    /// From now, after so many device calls each call fails.
    fn stop_after(&mut self, calls: u64, asked: Image)
        ensures stop { Self.left self.new ≡ Some calls }
        ensures image { image self.new ≡ asked }
        ensures same { Self.told self.new ≡ Self.told self.old }
        ensures bytes_read { Self.bytes_read self.new ≡ Self.bytes_read self.old }
        ensures time { Moves (Self.moment self.old) (Self.moment self.new) (Self.since self.old) (Self.since self.new) (Self.told self.new) }
        ensures room { Self.room self.new ≡ Self.room self.old }
        ensures failures { Self.failures self.new ≡ Self.failures self.old }
        ensures alone { Self.stops_alone self.new ≡ Self.stops_alone self.old };

    /// The disk holds the image that was asked for, and works again.
    fn restart(&mut self)
        ensures restarts { Restarts (Self.told self.old) (Self.told self.new) (image_at (Self.left self.old) (image self.old)) }
        ensures stop { Self.left self.new ≡ None }
        ensures bytes_read { Self.bytes_read self.new ≡ Self.bytes_read self.old }
        ensures time { Moves (Self.moment self.old) (Self.moment self.new) (Self.since self.old) (Self.since self.new) (Self.told self.new) }
        ensures failures { Self.failures self.new ≡ Self.failures self.old }
        ensures steady { Self.is_steady self.old ≡ true → Self.is_steady self.new ≡ true }
        ensures alone { Self.stops_alone self.new ≡ Self.stops_alone self.old };
}
