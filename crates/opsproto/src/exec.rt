use names::{Copied, Items, Text};
use std::alloc::{AllocError, Global};

/// How a cache mount's folder is named and shared.
#[derive(Drop)]
pub struct CacheOpt<T = Text> {
    pub id: T,
    /// 0 for SHARED, 1 for PRIVATE, 2 for LOCKED. Other numbers are kept.
    pub sharing: i32,
}

/// A mount of an exec op.
#[derive(Drop)]
pub struct Mount<T = Text> {
    /// The place of its input among the op's, or -1 for none.
    pub input: i64,
    pub selector: T,
    pub dest: T,
    /// The index of its output, or -1 for none.
    pub output: i64,
    pub readonly: bool,
    /// 0 for BIND, 1 for SECRET, 2 for SSH, 3 for CACHE, 4 for TMPFS. Other numbers are kept.
    pub mount_type: i32,
    pub cache: Option<CacheOpt<T>>,
}

/// The command of an exec op.
#[derive(Drop)]
pub struct Meta<T = Text> {
    pub args: Items<T>,
    pub env: Items<T>,
    pub cwd: T,
    pub user: T,
}

/// An op that runs a command.
#[derive(Drop)]
pub struct ExecOp<T = Text> {
    pub meta: Option<Meta<T>>,
    pub mounts: Items<Mount<T>>,
    pub network: i32,
    pub security: i32,
}

impl Copied for CacheOpt {
    fn copy(&self, alloc: Global) -> Result<Self, AllocError> {
        Ok(CacheOpt {
            id: self.id.copy(alloc)?,
            sharing: self.sharing,
        })
    }
}

impl Copied for Mount {
    fn copy(&self, alloc: Global) -> Result<Self, AllocError> {
        let cache = match &self.cache {
            Some(cache) => Some(cache.copy(alloc)?),
            None => None,
        };
        Ok(Mount {
            input: self.input,
            selector: self.selector.copy(alloc)?,
            dest: self.dest.copy(alloc)?,
            output: self.output,
            readonly: self.readonly,
            mount_type: self.mount_type,
            cache,
        })
    }
}

impl Copied for Meta {
    fn copy(&self, alloc: Global) -> Result<Self, AllocError> {
        Ok(Meta {
            args: self.args.copy(alloc)?,
            env: self.env.copy(alloc)?,
            cwd: self.cwd.copy(alloc)?,
            user: self.user.copy(alloc)?,
        })
    }
}

impl Copied for ExecOp {
    fn copy(&self, alloc: Global) -> Result<Self, AllocError> {
        let meta = match &self.meta {
            Some(meta) => Some(meta.copy(alloc)?),
            None => None,
        };
        Ok(ExecOp {
            meta,
            mounts: self.mounts.copy(alloc)?,
            network: self.network,
            security: self.security,
        })
    }
}
