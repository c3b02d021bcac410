// Laws of the bodies of frames.
ghost use Rattle.std.specs.Prelude.{◌≡◌, ℕ, List};
ghost use Rattle.wh_codec.specs.Body.{IsBodyOf};
ghost use Rattle.wh_codec.specs.declared.frame.Frame.{Frame};

/// A body is that of one frame at most.
pub fn body_has_one_frame()
    ensures { (body : List ℕ) (f g : Frame) → IsBodyOf body f → IsBodyOf body g → f ≡ g }
{}
