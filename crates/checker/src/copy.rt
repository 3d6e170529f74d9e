// Handing out: the draws that a run has noted, copied to the front of the two lent buffers. What comes after them stays as it is.
ghost use Rattle.std.specs.Prelude.{◌≡◌, ◌++◌, take, drop};
ghost use Rattle.checker.specs.Follow.{CopyRoom};

pub fn copy_draws(ticks: &mut [u32], slots: &mut [u8], at: &[u32], from: &[u8], draws: u16)
    requires { CopyRoom draws ticks.old slots.old at.now from.now }
    ensures ticks { ticks.new ≡ take draws at.now ++ drop draws ticks.old }
    ensures slots { slots.new ≡ take draws from.now ++ drop draws slots.old }
{
    let many = draws as usize;
    ticks[..many].copy_from_slice(&at[..many]);
    slots[..many].copy_from_slice(&from[..many]);
}
